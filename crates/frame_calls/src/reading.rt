// Frames read: the reader's number, and the bytes between type and check.
ghost use Rattle.std.specs.Prelude.{◌≡◌, ◌-◌, ◌≤◌, length};
ghost use Rattle.refusals.specs.Numbers.{number_of};
ghost use Rattle.frame_calls.specs.Shown.{part_number, part_after};

use refusals::Refusal;

// Shows the bytes between type and check of a frame of len bytes, of which its reader answered that.
pub(crate) fn show_part<T: Copy>(
    len: usize,
    read: Result<T, Refusal>,
    frame: &[u8],
    part: &mut [u8],
) -> Result<(), Refusal>
    requires { (3 ≤ len) × (number_of read ≡ 0 → length frame.now ≡ len) }
    ensures { (number_of result ≡ part_number len (number_of read) part.old) × (part.new ≡ part_after len (number_of read) frame.now part.old) }
{
    if part.len() != len - 3 {
        return Err(Refusal::BadLen);
    }
    match read {
        Ok(_) => {
            part.copy_from_slice(&frame[1..len - 2]);
            Ok(())
        }
        Err(why) => Err(why),
    }
}
