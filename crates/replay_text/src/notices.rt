// What the replay program prints in place of a report, put into a lent store of bytes: a refusal, or that
// all is off.

ghost use Rattle.std.specs.Prelude.{◌≡◌, min, length};
ghost use Rattle.replay_text.specs.Text.{put};
ghost use Rattle.replay_text.specs.Notices.{refused_text, off_text};

use crate::Text;

// That something was refused, with its number.
pub fn write_refusal(number: u64, text: &mut [u8]) -> usize
    ensures text { text.new ≡ put text.old 0 (refused_text number) }
    ensures length { result ≡ min (length text.old) (length (refused_text number)) }
{
    let mut line = Text::new(text);
    line.put_number(b"refused ", number, b'\n');
    line.length
}

// That all modes are off.
pub fn write_off(text: &mut [u8]) -> usize
    ensures text { text.new ≡ put text.old 0 off_text }
    ensures length { result ≡ min (length text.old) (length off_text) }
{
    let mut line = Text::new(text);
    line.put(b"off\n");
    line.length
}
