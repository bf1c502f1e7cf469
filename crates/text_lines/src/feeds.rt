//! How many line feeds a text has.
#![tactic(auto)]

ghost use Rattle.std.specs.Prelude.{◌≡◌, ◌*◌, ◌≤◌, ◌==◌, count_by, length, take};
ghost use Rattle.text_lines.specs.Lines.{line_feeds};

/// The bytes whose line feeds are counted at once.
const BLOCK: usize = 128;

/// How many line feeds a block has.
fn feeds_in_block(block: &[u8]) -> u8
    requires { length block.now ≤ 128 }
    ensures value { result ≡ count_by (λ byte. byte == 10) block.now }
    ensures within { result ≤ length block.now }
{
    let mut count = 0;
    for byte in block {
        if *byte == b'\n' {
            count += 1;
        }
    }
    count
}

/// How many line feeds so many whole blocks in front have.
fn feeds_in_blocks(blocks: usize, bytes: &[u8]) -> usize
    requires { 128 * blocks ≤ length bytes.now }
    ensures value { result ≡ count_by (λ byte. byte == 10) (take (128 * blocks) bytes.now) }
    ensures within { result ≤ 128 * blocks }
{
    let mut count = 0;
    for index in 0..blocks {
        count += usize::from(feeds_in_block(&bytes[BLOCK * index..BLOCK * index + BLOCK]));
    }
    count
}

/// How many line feeds the bytes have.
pub fn line_feeds(bytes: &[u8]) -> usize
    ensures value { result ≡ line_feeds bytes.now }
    ensures within { result ≤ length bytes.now }
{
    let blocks = bytes.len() / BLOCK;
    feeds_in_blocks(blocks, bytes) + usize::from(feeds_in_block(&bytes[BLOCK * blocks..]))
}
