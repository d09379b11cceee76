// A field: a decimal number, right-justified in its bytes.
ghost use Rattle.std.specs.Prelude.{◌≡◌, ℕ, ◌≤◌, false, length, decimal};
ghost use Rattle.rows.specs.Fields.{shown, scan, field_read, FieldExact};

// Why a field was not read: its bytes are those of no number, or the number passes the limit.
#[derive(Clone, Copy, PartialEq, Eq, Debug)]
pub enum FieldFault {
    Form,
    Limit,
}

// The number that the bytes show, if they show one: spaces, and then its digits.
fn shown_number(bytes: &[u8]) -> Option<u64>
    requires { length bytes.now ≤ 19 }
    ensures { result ≡ scan false 0 bytes.now }
{
    let mut value: Option<u64> = None;
    for b in bytes {
        value = match (value, *b) {
            (None, b' ') => None,
            (None, digit @ b'0'..=b'9') => Some((digit - b'0') as u64),
            (Some(n), digit @ b'0'..=b'9') if n > 0 => Some(n * 10 + (digit - b'0') as u64),
            _ => return None,
        };
    }
    value
}

// The number that the bytes show. Up to 19 digits are read in full before the limit is judged.
pub(crate) fn read_field(bytes: &[u8], limit: u64) -> Result<u64, FieldFault>
    requires { length bytes.now ≤ 19 }
    ensures value { result ≡ field_read bytes.now limit }
    ensures exact { FieldExact (length bytes.now) bytes.now limit result }
{
    let value = shown_number(bytes).ok_or(FieldFault::Form)?;
    if value > limit {
        return Err(FieldFault::Limit);
    }
    Ok(value)
}

// Writes the number over the whole of `out`, its last digit last.
#[tactic(auto, using(std::proofs::lemmas::Fmt::decimal_nonempty))]
pub(crate) fn write_field(out: &mut [u8], value: u64)
    requires { length (decimal value) ≤ length out.old }
    ensures { out.new ≡ shown (length out.old) value }
{
    let n = out.len();
    out[n - 1] = b'0' + (value % 10) as u8;
    let mut left = value / 10;
    // Written by place: nothing is known of what a loop over `iter_mut().rev()` wrote.
    for i in (0..n - 1).rev() {
        out[i] = if left > 0 {
            b'0' + (left % 10) as u8
        } else {
            b' '
        };
        left /= 10;
    }
}
