//! What comes of a call, and how it is told.

/// What came of a call.
#[derive(Clone, Copy)]
pub enum Came {
    Done,
    /// It answered that no memory is left, and left what it was lent
    OutOfMemory,
    Wrong,
}

/// Done where that is so, else wrong.
pub fn done_if(is_right: bool) -> Came {
    if is_right { Came::Done } else { Came::Wrong }
}

/// Writes the line of a call, and says whether it did its work.
pub fn is_done<R: Print>(rt: &R, call: &str, came: Came) -> bool {
    let said = match came {
        Came::Done => "done",
        Came::OutOfMemory => "out of memory",
        Came::Wrong => "wrong",
    };
    let _ = println!(rt; "{call}: {said}");
    matches!(came, Came::Done)
}

/// Writes the line of a call that gives something, and hands it on.
pub fn told<R: Print, T: Drop>(rt: &R, call: &str, outcome: Result<T, Came>) -> Option<T> {
    match outcome {
        Ok(value) => {
            is_done(rt, call, Came::Done);
            Some(value)
        }
        Err(came) => {
            is_done(rt, call, came);
            None
        }
    }
}

/// From here on every request for memory is refused, by the library that `tools/rows` puts before the program.
pub fn refuse_all<R: Eprint>(rt: &R) {
    let _ = rt.eprint("refuse: all\n");
}

/// From here on none is.
pub fn refuse_none<R: Eprint>(rt: &R) {
    let _ = rt.eprint("refuse: none\n");
}
