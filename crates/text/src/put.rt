// Bytes put into an output. Each function writes at `at` and answers the place after what it wrote.
ghost use Rattle.std.specs.Prelude.{[], ◌∷◌, ◌<◌, length};
ghost use Rattle.text.specs.Numbers.{decimal};
ghost use Rattle.text.specs.Places.{Room, Puts};

// One byte.
pub fn put_byte(out: &mut [u8], at: usize, v: u8) -> usize
    requires { at < length out.old }
    ensures { Puts (v ∷ []) at out.old result out.new }
{
    out[at] = v;
    at + 1
}

// Bytes as they are.
pub fn put_text(out: &mut [u8], at: usize, text: &[u8]) -> usize
    requires { Room text.now at out.old }
    ensures { Puts text.now at out.old result out.new }
{
    let next = at + text.len();
    out[at..next].copy_from_slice(text);
    next
}

// A number in decimal.
pub fn put_number(out: &mut [u8], at: usize, x: u16) -> usize
    requires { Room (decimal x) at out.old }
    ensures { Puts (decimal x) at out.old result out.new }
{
    if x < 10 {
        return put_byte(out, at, b'0' + x as u8);
    }
    let next = put_number(out, at, x / 10);
    put_byte(out, next, b'0' + (x % 10) as u8)
}
