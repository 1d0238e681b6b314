// A layout within the bounds, by draws.
use numbers::Layout;
use trial::draw;

fn tiles(seed: &mut u64) -> u64 {
    match draw(seed, 4) {
        0 => 1 + draw(seed, 8),
        1 => 1 + draw(seed, 1000),
        2 => 1 + draw(seed, 32768),
        _ => 65536 - draw(seed, 1000),
    }
}

fn cookie(seed: &mut u64) -> u64 {
    match draw(seed, 4) {
        0 => 0,
        1 => u64::MAX - draw(seed, 8),
        2 => draw(seed, 32768),
        _ => trial::high(seed),
    }
}

pub fn layout(seed: &mut u64) -> Layout {
    let n = 1 + draw(seed, 16);
    let k = draw(seed, 4);
    let w = n + 2 * k;
    Layout {
        n,
        k,
        p: w + draw(seed, 65 - w),
        u: 1 + draw(seed, 4096),
        t: tiles(seed),
        cookie: cookie(seed),
        edition: 1 + draw(seed, 2),
    }
}
