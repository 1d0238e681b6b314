// Lines cut from a stream of lent pieces. A line may cross pieces, and of a long one only its beginning is kept: 8,301 bytes, the longest line with its
// newline. A longer line is malformed whatever its end is.
#![tactic(auto)]

ghost use Rattle.std.specs.Prelude.{◌≡◌, ◌<◌, ◌≤◌, ◌+◌, ◌-◌, ◌++◌, length, take, drop, MatchOption};
ghost use Rattle.lists.specs.Tabulate.{at};
ghost use Rattle.line_cursor.specs.Lines.{NoNewline, newline_within, line_end, whole_of, kept_of};

// ---- the end of a line

// Whether one of the bytes is a newline. The loop has no way out, so that it runs on vectors.
fn has_newline(bytes: &[u8]) -> bool
    ensures { result ≡ newline_within bytes.now (length bytes.now) }
{
    let mut found = false;
    for c in bytes {
        found |= *c == b'\n';
    }
    found
}

// Past the whole blocks of n bytes that have no newline: the line that begins at `from` ends where one that began here would.
fn past_blocks(piece: &[u8], from: usize, n: usize) -> usize
    requires { (from ≤ length piece.now) × (0 < n) }
    ensures { (result ≤ length piece.now) × (line_end piece.now from ≡ line_end piece.now result) }
{
    let mut at = from;
    for block in piece[from..].chunks_exact(n) {
        if has_newline(block) {
            return at;
        }
        at += n;
    }
    at
}

// Where the first newline is, byte by byte.
fn first_newline(bytes: &[u8]) -> Option<usize>
    ensures { MatchOption result (NoNewline bytes.now (length bytes.now)) (λ i. (i < length bytes.now) × (at bytes.now i ≡ 10) × NoNewline bytes.now i) }
{
    bytes.iter().position(|c| *c == b'\n')
}

// Where the line that begins at `from` ends in this piece: after its newline, or at the piece's end. The sizes of the blocks are literals, so that each
// block is a few vectors.
pub fn line_end(piece: &[u8], from: usize) -> usize
    requires { from ≤ length piece.now }
    ensures { result ≡ line_end piece.now from }
{
    let block = past_blocks(piece, from, 64);
    let at = past_blocks(piece, block, 16);
    match first_newline(&piece[at..]) {
        Some(i) => at + i + 1,
        None => piece.len(),
    }
}

// Whether the line from `from` to `end` has its newline.
pub fn is_whole(piece: &[u8], from: usize, end: usize) -> bool
    requires { end ≤ length piece.now }
    ensures { result ≡ whole_of (take (end - from) (drop from piece.now)) }
{
    from < end && piece[end - 1] == b'\n'
}

// ---- a line that crosses pieces

// Appends the bytes from..end of the piece to the first `held` bytes of the buffer, as far as there is room, and answers how many it holds then.
pub fn keep(piece: &[u8], from: usize, end: usize, line: &mut [u8], held: usize) -> usize
    requires { (from ≤ end) × (end ≤ length piece.now) × (length line.old ≡ 8301) × (held ≤ 8301) }
    ensures beginning { take result line.new ≡ kept_of (take held line.old ++ take (end - from) (drop from piece.now)) }
    ensures held { result ≡ length (kept_of (take held line.old ++ take (end - from) (drop from piece.now))) }
    ensures room { (result ≤ 8301) × (length line.new ≡ 8301) }
{
    let count = (end - from).min(8301 - held);
    line[held..held + count].copy_from_slice(&piece[from..from + count]);
    held + count
}
