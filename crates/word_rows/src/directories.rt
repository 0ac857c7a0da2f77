//! Directory rows as words.

ghost use Rattle.std.specs.Prelude.{◌≡◌, ◌^◌, ◌≤◌};

use crate::Layout;
use crate::bases::{base_of, base_word};
use plain_map::DirectoryRow;
use step_counts::{DIRECTORY_HEAD_WORDS, MOST_DEPTH};

impl Layout {
    ghost use Rattle.std.specs.Prelude.{◌≡◌, ◌↔◌, IsTrue, length};
    ghost use Rattle.std.specs.Bool.{OnTrue};
    ghost use Rattle.plain_map.specs.Rows.{directory_content, HasDirectoryRoom};
    ghost use Rattle.word_rows.specs.DirectoryWords.{
      IsDirectory,
      SpellsDirectory,
      SpellSomeDirectory,
      words_of_directory,
    };
    ghost use Rattle.word_rows.specs.LayoutView.{shape_of};

    /// Writes the words of a directory row, as many as its depth says.
    pub fn write_directory(&self, row: &DirectoryRow, out: &mut [u64])
        requires spelled { IsDirectory (shape_of self.now).settings (directory_content row.now) }
        requires whole { length out.old ≡ length (words_of_directory (directory_content row.now)) }
        ensures { out.new ≡ words_of_directory (directory_content row.now) }
    {
        out[DIRECTORY_HEAD_WORDS..].copy_from_slice(&row.entries);
        out[1] = base_word(row.base);
        out[0] = row.depth as u64;
    }

    /// Reads a directory row, and answers whether the words spell one. If not, `into` holds some row.
    ///
    /// They spell none exactly where the depth is above the greatest, or there are not 2^depth entries.
    pub fn read_directory(&self, words: &[u64], into: &mut DirectoryRow) -> bool
        requires { HasDirectoryRoom (shape_of self.now).settings.depth into.old }
        ensures spelled { IsTrue result ↔ SpellSomeDirectory (shape_of self.now).settings words.now }
        ensures read { OnTrue result (SpellsDirectory (shape_of self.now).settings
            (directory_content into.new) words.now) }
        ensures room { HasDirectoryRoom (shape_of self.now).settings.depth into.new }
    {
        if words.len() < DIRECTORY_HEAD_WORDS || words[0] > self.settings().depth as u64 {
            return false;
        }
        let depth = words[0] as u32;
        if words.len() != DIRECTORY_HEAD_WORDS + entries_at(depth) {
            return false;
        }
        into.depth = depth;
        into.base = base_of(words[1]);
        into.entries.clear();
        into.entries
            .extend_from_slice(&words[DIRECTORY_HEAD_WORDS..])
            .unwrap();
        true
    }
}

// How many entries a directory row of this depth has.
fn entries_at(depth: u32) -> usize
    requires { depth ≤ MOST_DEPTH }
    ensures value { result ≡ 2 ^ depth }
    ensures few { result ≤ 2 ^ MOST_DEPTH }
{
    1 << depth
}
