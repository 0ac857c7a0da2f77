//! The memory of a table, for C.

ghost use Rattle.flowdir_c.specs.Memory.{IsMemoryOf};

use crate::options::Options;
use word_rows::Layout;

/// The bytes of the words that an opening takes: those of the table, and as many from which they are copied. It is 0
/// where the options are out of their ranges.
#[unsafe(no_mangle)]
pub extern "C" fn flowdir_memory(options: &Options) -> u64
    ensures { IsMemoryOf options.now result }
{
    let Some((settings, rows)) = options.fit() else {
        return 0;
    };
    let each_seat = [rows; 8];
    let layout = Layout::new(&settings, &each_seat[..settings.seats as usize]);
    16 * layout.words()
}
