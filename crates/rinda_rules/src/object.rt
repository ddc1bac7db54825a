/// What kind of object an id names.
#[derive(Clone, Copy, Debug, PartialEq, Eq)]
pub enum ObjectKind {
    /// A tuple that was written.
    Entry,
    /// A read, take or move that was reserved.
    Request,
    /// A notifier.
    Notifier,
}

/// How an object ended.
#[derive(Clone, Copy, Debug, PartialEq, Eq)]
pub enum Last {
    /// A tuple that was taken.
    Taken,
    /// Its time was over.
    Expired,
    /// Somebody canceled it.
    Canceled,
    /// A request that was served or withdrawn.
    Done,
}

/// Whether an object whose time is over waits for its renewer.
///
/// Source: docs/SPACE.md, Age.
#[derive(Clone, Copy, Debug, PartialEq, Eq)]
pub enum Doubt {
    /// Its time is not over.
    No,
    /// Its renewer has to be asked.
    Waiting,
    /// Its renewer is being asked.
    Asked,
}
