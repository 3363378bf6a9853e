//! What a reader chooses of the paths of a source.

/// Where the statements of a subtask are.
#[derive(Clone, Copy, PartialEq, Eq)]
pub enum Schedule {
    /// After those of the attaching task, with a mark after ATTACH.
    Marked,
    /// Right after ATTACH.
    AtAttach,
    /// After those of the attaching task.
    AtEnd,
}

/// How often the body of the loop is written that begins at a label.
#[derive(Drop)]
pub struct Repeat {
    pub label: String,
    pub count: u32,
}

/// What a reader chooses of the paths of a source.
#[derive(Drop)]
pub struct Choices {
    /// The labels to which the path branches, or the numbers of their statements. With `None` all statements are taken in their order.
    pub path: Option<Vec<String>>,
    pub repeats: Vec<Repeat>,
    pub schedule: Schedule,
}
