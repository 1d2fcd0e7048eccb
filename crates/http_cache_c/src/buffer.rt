//! Writes bytes to buffers of the caller.
ghost use Rattle.std.specs.Prelude.{◌≡◌, ◌≤◌, ◌<◌, ◌⊎◌, true, false, length, pos, ◌≤ℤ◌};
ghost use Rattle.http_cache_c.specs.Buffer.{IsWritten, IsHanded, LacksRoom};
ghost use Rattle.http_cache_c.specs.Codes.{IsDone, too_small};

use crate::codes::TOO_SMALL;

// Writes the bytes to the front of a buffer that has room for them.
fn write(bytes: &[u8], out: &mut [u8])
    requires { length bytes.now ≤ length out.old }
    ensures { IsWritten bytes.now (length bytes.now) out.old out.new }
{
    out[..bytes.len()].copy_from_slice(bytes);
}

/// Writes the bytes and returns the code if there is room, else writes nothing. `needed` becomes
/// the required room in either case.
pub(crate) fn hand(code: i32, bytes: &[u8], out: &mut [u8], needed: &mut usize) -> i32
    requires { pos 0 ≤ℤ code }
    ensures done { IsDone result → IsHanded code bytes.now result needed.new out.old out.new }
    ensures failed { ¬ (IsDone result) → result ≡ too_small }
    ensures small { ¬ (IsDone result) → LacksRoom bytes.now needed.new out.old }
    ensures kept { ¬ (IsDone result) → out.new ≡ out.old }
{
    *needed = bytes.len();
    if bytes.len() > out.len() {
        return TOO_SMALL;
    }
    write(bytes, out);
    code
}

/// Writes both to their buffers if each has room, else writes nothing. Returns whether it wrote.
pub(crate) fn write_both(
    form: &[u8],
    form_out: &mut [u8],
    form_needed: &mut usize,
    head: &[u8],
    out: &mut [u8],
    needed: &mut usize,
) -> bool
    ensures form { result ≡ true
        → IsWritten form.now form_needed.new form_out.old form_out.new }
    ensures head { result ≡ true → IsWritten head.now needed.new out.old out.new }
    ensures lengths { (form_needed.new ≡ length form.now) × (needed.new ≡ length head.now) }
    ensures small { result ≡ false
        → (length form_out.old < form_needed.new) ⊎ (length out.old < needed.new) }
    ensures form_kept { result ≡ false → form_out.new ≡ form_out.old }
    ensures kept { result ≡ false → out.new ≡ out.old }
{
    *form_needed = form.len();
    *needed = head.len();
    if form.len() > form_out.len() {
        return false;
    }
    if head.len() > out.len() {
        return false;
    }
    write(form, form_out);
    write(head, out);
    true
}
