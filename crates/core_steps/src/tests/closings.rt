//! What a closed table says.

ghost use Rattle.std.specs.Prelude.{◌≡◌};

use super::SMALL_ROWS;
use closed_words::{
    Starts, applied_at, bucket_rows, directory_rows, first_row, is_exchanged, new_number, row_base,
};
use std::alloc::{AllocError, Global};
use std::test::Fail;
use step_counts::Settings;
use word_rows::Layout;

// The words of a table of one seat, two items and depth 1, after an insert of port 1.
fn small_words(alloc: Global) -> Result<Vec<u64>, AllocError> {
    let mut words = [0; 149];
    let filled = [
        0,
        1,
        1,
        0,
        1,
        0,
        0x0a00_0001,
        0,
        0x0a00_0002,
        0x0100_5006,
        1,
        10,
        0,
        0,
        0,
        0,
        0,
        0,
        0,
        1,
        1,
    ];
    words[3] = 2;
    words[4] = 1;
    words[16] = 1;
    words[36] = 1;
    words[37] = 1;
    words[57..78].copy_from_slice(&filled);
    words[141] = 1;
    words[144] = 1;
    Vec::from_slice(alloc, &words)
}

fn small_layout(settings: &Settings) -> Layout
    requires { settings.now.seats ≡ 1 }
{
    Layout::new(settings, &[SMALL_ROWS])
}

// The rows of the small table: the insert's row was exchanged and has number 1 new.
#[test]
fn rows_of_a_small_table(rt: HostRuntime) -> Result<(), Fail> {
    let alloc = rt.alloc();
    let settings = Settings::new(1, 2, 1, 1)?;
    let layout = small_layout(&settings);
    let starts = Starts::new(&layout);
    let words = small_words(alloc)?;
    let directories = directory_rows(alloc, &starts, &words)?;
    let rows = bucket_rows(alloc, &starts, &words)?;
    assert!(rt;
        directories.as_slice() == [0].as_slice() && rows.as_slice() == [2, 0, 1].as_slice()
    );
    let bases = (row_base(&starts, &words, 2), row_base(&starts, &words, 1));
    assert_eq!(rt; bases, (Some(0), None));
    let exchanged = (
        is_exchanged(&starts, &words, 2),
        is_exchanged(&starts, &words, 0),
    );
    assert_eq!(rt; exchanged, (true, false));
    let firsts = (first_row(&starts, &words, 0), first_row(&starts, &words, 1));
    assert_eq!(rt; firsts, (Some(0), Some(1)));
    let numbers = (
        new_number(&starts, &words, 0, 2),
        new_number(&starts, &words, 0, 0),
    );
    assert_eq!(rt;
        (applied_at(&starts, &words, 2, 0), numbers),
        (1, (Some(1), None))
    );
    Ok(())
}
