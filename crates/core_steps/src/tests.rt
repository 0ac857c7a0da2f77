//! Tests of the crates that a table is made of, worked by hand, which show that their definitions mean what was meant,
//! and that memory is found. They stand here since each crate with tests is proved a second time.

mod buckets;
mod changes;
mod closings;
mod maps;
mod openings;
mod rooms;
mod spellings;

use plain_map::{Key, Pair};
use step_counts::SeatRows;

// The key of TCP packets from 10.0.0.1, with this port, to 10.0.0.2, port 80. Its hash by ports begins with the port's
// 16 bits: ports 1, 2 and 3 begin with 000, port 8192 with 001, port 16384 with 010, and port 32768 with 100.
pub(crate) fn key(port: u16) -> Key {
    Key {
        k0: 0,
        k1: 0x0a00_0001,
        k2: 0,
        k3: 0x0a00_0002,
        k4: u64::from(port) << 24 | 0x5006,
    }
}

// That key with a value and bytes.
pub(crate) fn pair(port: u16, value: u64, bytes: u64) -> Pair {
    Pair {
        key: key(port),
        value,
        bytes,
    }
}

// The rows of the only seat of a small table.
const SMALL_ROWS: SeatRows = SeatRows {
    op_rows: 1,
    bucket_rows: 4,
    bucket_words: 2,
    directory_rows: 1,
};

// So many rows of each kind.
fn rows_of(op_rows: u64, bucket_rows: u64, bucket_words: u64, directory_rows: u64) -> SeatRows {
    SeatRows {
        op_rows,
        bucket_rows,
        bucket_words,
        directory_rows,
    }
}
