//! The words behind the program's name.

use std::env::FillError;
use std::rt::Env;
use std::test::Fail;
use witc_run::words::words;

/// So many words behind the program's name, each of so many letters `w`.
#[derive(Drop)]
struct Arguments {
    count: usize,
    length: usize,
}

impl Env for Arguments {
    fn arg(&self, i: usize, room: &mut [u8]) -> Result<usize, FillError> {
        if i > self.count {
            return Err(FillError::NotPresent);
        }
        match room.get_mut(..self.length) {
            Some(place) => {
                place.fill(b'w');
                Ok(self.length)
            }
            None => Err(FillError::TooLong),
        }
    }

    fn var(&self, _name: &str, _room: &mut [u8]) -> Result<usize, FillError> {
        Err(FillError::NotPresent)
    }

    fn var_at(&self, _i: usize, _room: &mut [u8]) -> Result<usize, FillError> {
        Err(FillError::NotPresent)
    }
}

// Words that the room at first holds, just and by far not, and more words than any command has.
#[test]
fn words_behind_the_name(rt: HostRuntime) -> Result<(), Fail> {
    static CASES: [(usize, usize, usize); 6] = [
        (0, 3, 0),
        (1, 0, 1),
        (2, 256, 2),
        (3, 257, 3),
        (4, 5000, 4),
        (9, 5, 4),
    ];
    for (count, length, expected) in &CASES {
        let arguments = Arguments {
            count: *count,
            length: *length,
        };
        let found = words(&arguments, rt.alloc())?;
        assert_eq!(rt; found.len(), *expected);
        for word in &found {
            assert_eq!(rt; word.len(), *length);
            assert!(rt; word.iter().all(|byte| *byte == b'w'));
        }
    }
    Ok(())
}
