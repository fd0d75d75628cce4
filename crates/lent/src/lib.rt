// Bytes put into a lent buffer: one or a piece at a place, and a front where there is room for it. All other bytes stay.
#![tactic(auto)]

ghost use Rattle.std.specs.Prelude.{◌≡◌, ◌+◌, ◌<◌, ◌≤◌, [], ◌∷◌, length, is_some, IfSome};
ghost use Rattle.lent.specs.Put.{Put};
ghost use Rattle.lent.specs.Front.{Delivered};

// One byte, put at a place. Answers the place after it.
pub fn put_byte(out: &mut [u8], at: usize, byte: u8) -> usize
    requires { at < length out.old }
    ensures { Put out.old at (byte ∷ []) out.new result }
{
    out[at] = byte;
    at + 1
}

// The bytes of `from`, put at a place. Answers the place after them.
pub fn put_bytes(out: &mut [u8], at: usize, from: &[u8]) -> usize
    requires { at + length from.now ≤ length out.old }
    ensures { Put out.old at from.now out.new result }
{
    let end = at + from.len();
    out[at..end].copy_from_slice(from);
    end
}

// The bytes of `from` at the buffer's front if they have room there; else not one of them. Answers how many were put.
pub fn deliver(from: &[u8], out: &mut [u8]) -> Option<usize>
    ensures delivered { Delivered out.old from.now out.new (is_some result) }
    ensures count { IfSome result (λ n. n ≡ length from.now) }
{
    if out.len() < from.len() {
        return None;
    }
    Some(put_bytes(out, 0, from))
}
