//! What the steps of a script are about, and the kinds of statement of each.

use crate::dice::Dice;

/// A kind of statement.
#[derive(Clone, Copy, Debug, PartialEq, Eq)]
pub enum StatementKind {
    Obtain,
    /// An obtain with boundaries.
    ObtainWithin,
    ObtainList,
    Release,
    ReleaseList,
    ReleaseWhole,
    Pool,
    Attach,
    /// RETURN or ABEND.
    End,
    /// PUT, SHOW or MOVE.
    Touch,
    Where,
    Subpools,
    Map,
    /// A request that is refused in most states.
    Refused,
    /// An ATTACH of a task of a new name.
    OneMoreTask,
    /// A CPOOL BUILD of a pool of a new name.
    OneMorePool,
}

/// What a step is about.
#[derive(Clone, Copy, Debug, PartialEq, Eq)]
pub enum Theme {
    Storage,
    Tasks,
    Pools,
    Lists,
    Boundaries,
    Whole,
    Refusals,
    ManyTasks,
    ManyPools,
}

/// The themes of the steps of a script that reaches everything.
static THEMES: [Theme; 20] = [
    Theme::Storage,
    Theme::Storage,
    Theme::Tasks,
    Theme::Tasks,
    Theme::Pools,
    Theme::Pools,
    Theme::Lists,
    Theme::Lists,
    Theme::Boundaries,
    Theme::Boundaries,
    Theme::Whole,
    Theme::Whole,
    Theme::Refusals,
    Theme::Refusals,
    Theme::Refusals,
    Theme::Refusals,
    Theme::ManyTasks,
    Theme::ManyTasks,
    Theme::ManyPools,
    Theme::ManyPools,
];

static STORAGE: [StatementKind; 16] = [
    StatementKind::Obtain,
    StatementKind::Obtain,
    StatementKind::Obtain,
    StatementKind::Obtain,
    StatementKind::Obtain,
    StatementKind::Release,
    StatementKind::Release,
    StatementKind::Release,
    StatementKind::Touch,
    StatementKind::Touch,
    StatementKind::Touch,
    StatementKind::Attach,
    StatementKind::Where,
    StatementKind::Subpools,
    StatementKind::Map,
    StatementKind::Refused,
];

static TASKS: [StatementKind; 16] = [
    StatementKind::Attach,
    StatementKind::Attach,
    StatementKind::Attach,
    StatementKind::Attach,
    StatementKind::Obtain,
    StatementKind::Obtain,
    StatementKind::Obtain,
    StatementKind::Obtain,
    StatementKind::End,
    StatementKind::End,
    StatementKind::Release,
    StatementKind::Release,
    StatementKind::Touch,
    StatementKind::Subpools,
    StatementKind::Subpools,
    StatementKind::Map,
];

static POOLS: [StatementKind; 16] = [
    StatementKind::Pool,
    StatementKind::Pool,
    StatementKind::Pool,
    StatementKind::Pool,
    StatementKind::Pool,
    StatementKind::Pool,
    StatementKind::Pool,
    StatementKind::Pool,
    StatementKind::Pool,
    StatementKind::Pool,
    StatementKind::Attach,
    StatementKind::End,
    StatementKind::Obtain,
    StatementKind::Release,
    StatementKind::Touch,
    StatementKind::Subpools,
];

static LISTS: [StatementKind; 16] = [
    StatementKind::ObtainList,
    StatementKind::ObtainList,
    StatementKind::ObtainList,
    StatementKind::ObtainList,
    StatementKind::ObtainList,
    StatementKind::ObtainList,
    StatementKind::ReleaseList,
    StatementKind::ReleaseList,
    StatementKind::ReleaseList,
    StatementKind::ReleaseList,
    StatementKind::Release,
    StatementKind::Release,
    StatementKind::Obtain,
    StatementKind::Touch,
    StatementKind::Where,
    StatementKind::Map,
];

static BOUNDARIES: [StatementKind; 16] = [
    StatementKind::ObtainWithin,
    StatementKind::ObtainWithin,
    StatementKind::ObtainWithin,
    StatementKind::ObtainWithin,
    StatementKind::ObtainWithin,
    StatementKind::ObtainWithin,
    StatementKind::ObtainWithin,
    StatementKind::ObtainWithin,
    StatementKind::Release,
    StatementKind::Release,
    StatementKind::Release,
    StatementKind::Release,
    StatementKind::Where,
    StatementKind::Where,
    StatementKind::Map,
    StatementKind::Attach,
];

static WHOLE: [StatementKind; 16] = [
    StatementKind::Obtain,
    StatementKind::Obtain,
    StatementKind::Obtain,
    StatementKind::Obtain,
    StatementKind::Obtain,
    StatementKind::ReleaseWhole,
    StatementKind::ReleaseWhole,
    StatementKind::ReleaseWhole,
    StatementKind::Pool,
    StatementKind::Pool,
    StatementKind::Pool,
    StatementKind::Attach,
    StatementKind::Touch,
    StatementKind::Release,
    StatementKind::Subpools,
    StatementKind::Map,
];

static REFUSALS: [StatementKind; 16] = [
    StatementKind::Refused,
    StatementKind::Refused,
    StatementKind::Refused,
    StatementKind::Refused,
    StatementKind::Refused,
    StatementKind::Refused,
    StatementKind::Refused,
    StatementKind::Refused,
    StatementKind::Refused,
    StatementKind::Obtain,
    StatementKind::Obtain,
    StatementKind::Obtain,
    StatementKind::Attach,
    StatementKind::Attach,
    StatementKind::Pool,
    StatementKind::Pool,
];

static MANY_TASKS: [StatementKind; 16] = [
    StatementKind::OneMoreTask,
    StatementKind::OneMoreTask,
    StatementKind::OneMoreTask,
    StatementKind::OneMoreTask,
    StatementKind::OneMoreTask,
    StatementKind::OneMoreTask,
    StatementKind::OneMoreTask,
    StatementKind::OneMoreTask,
    StatementKind::OneMoreTask,
    StatementKind::OneMoreTask,
    StatementKind::OneMoreTask,
    StatementKind::Attach,
    StatementKind::Attach,
    StatementKind::Obtain,
    StatementKind::Touch,
    StatementKind::Subpools,
];

static MANY_POOLS: [StatementKind; 16] = [
    StatementKind::OneMorePool,
    StatementKind::OneMorePool,
    StatementKind::OneMorePool,
    StatementKind::OneMorePool,
    StatementKind::OneMorePool,
    StatementKind::OneMorePool,
    StatementKind::OneMorePool,
    StatementKind::OneMorePool,
    StatementKind::OneMorePool,
    StatementKind::OneMorePool,
    StatementKind::OneMorePool,
    StatementKind::OneMorePool,
    StatementKind::OneMorePool,
    StatementKind::OneMorePool,
    StatementKind::OneMorePool,
    StatementKind::Subpools,
];

impl Theme {
    /// Returns one of all themes.
    pub fn any(dice: &mut Dice) -> Theme {
        THEMES[dice.below(20) as usize]
    }

    // Returns the kinds of statement, each as often as it is to come up.
    fn kinds(self) -> &'static [StatementKind; 16] {
        match self {
            Theme::Storage => &STORAGE,
            Theme::Tasks => &TASKS,
            Theme::Pools => &POOLS,
            Theme::Lists => &LISTS,
            Theme::Boundaries => &BOUNDARIES,
            Theme::Whole => &WHOLE,
            Theme::Refusals => &REFUSALS,
            Theme::ManyTasks => &MANY_TASKS,
            Theme::ManyPools => &MANY_POOLS,
        }
    }

    /// Returns the kind of the next statement.
    pub fn kind(self, dice: &mut Dice) -> StatementKind {
        self.kinds()[dice.below(16) as usize]
    }
}
