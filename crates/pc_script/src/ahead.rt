/// What comes next of a script: an item, the end of the script, or that it goes on behind the units that may be taken.
#[derive(Drop)]
pub enum Next<T> {
    Item(T),
    End,
    TooMany,
}

/// Why a script could not be read further.
#[derive(Clone, Copy, Debug, PartialEq, Eq)]
pub enum Stop {
    ReadFailed,
    NoMemory,
}
