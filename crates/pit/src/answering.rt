// The answer of a call on a board or a trace: three numbers in bytes.
ghost use Rattle.std.specs.Prelude.{◌≡◌};
ghost use Rattle.pit.specs.Answer.{eight_bytes, board_answer_bytes};

use in_bytes::BOARD_ANSWER_SIZE;

fn eight_bytes(n: u64) -> [u8; 8]
    ensures { result ≡ eight_bytes n }
{
    n.to_le_bytes()
}

pub(crate) fn board_answer_bytes(first: u64, second: u32, third: u32) -> [u8; BOARD_ANSWER_SIZE]
    ensures { result ≡ board_answer_bytes first second third }
{
    let a = eight_bytes(first);
    let b = numbers::four_bytes(second);
    let c = numbers::four_bytes(third);
    [
        a[0], a[1], a[2], a[3], a[4], a[5], a[6], a[7], b[0], b[1], b[2], b[3], c[0], c[1], c[2],
        c[3],
    ]
}
