// Products of bytes, many in one call, for bench/ alone: the field's tables are made once, as by every function that makes many products.
#![tactic(auto)]

ghost use Rattle.std.specs.Prelude.{◌≡◌, ◌≤◌, length, get_or};
ghost use Rattle.lists.specs.Tabulate.{tabulate};
ghost use Rattle.field.specs.Byte.{mul as product};
ghost use Rattle.bench_products.specs.Products.{products_of};

use field::Tables;

fn fill(tables: &Tables, a: &[u8], b: &[u8], out: &mut [u8])
    requires { (length out.old ≤ length a.now) × (length out.old ≤ length b.now) }
    ensures { out.new ≡ tabulate (length out.old) (λ i. product (get_or a.now i 0) (get_or b.now i 0)) }
{
    for i in 0..out.len() {
        out[i] = tables.mul(a[i], b[i]);
    }
}

// Puts into `out` the products of the bytes of a and b at the same places; changes nothing where one of them is shorter than `out`.
#[unsafe(no_mangle)]
pub extern "C" fn splicebell_bench_products(a: &[u8], b: &[u8], out: &mut [u8])
    ensures { out.new ≡ products_of a.now b.now out.old }
{
    if a.len() < out.len() || b.len() < out.len() {
        return;
    }
    fill(&Tables::new(), a, b, out);
}
