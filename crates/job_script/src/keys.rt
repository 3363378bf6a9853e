//! The keys of operands, in the order in which the statements bring them.

ghost use Rattle.std.specs.Prelude.{◌≡◌, ◌<◌, Some, bytes_eq};
ghost use Rattle.job_script.specs.Rows.{key_text};
ghost use Rattle.job_script.specs.Places.{place_in};

/// How many keys there are.
pub const KEYS: usize = 26;

/// The key of an operand KEY=value.
#[derive(Clone, Copy)]
pub enum Key {
    Below,
    Above,
    Fill,
    Res,
    Lv,
    A,
    Sp,
    Bndry,
    Loc,
    Startbdy,
    Contbdy,
    La,
    Length,
    Addr,
    Cond,
    Cpid,
    Csize,
    Pcellct,
    Scellct,
    Cell,
    Task,
    Gspv,
    Gspl,
    Shspv,
    Shspl,
    Szero,
}

impl Key {
    /// Returns the place of the key among all.
    #[tactic(auto, unfolding(crate::specs::Places::place_in, crate::specs::Places::keys))]
    pub fn index(self) -> usize
        ensures index { place_in (key_text self) ≡ Some result }
        ensures within { result < KEYS }
    {
        self as usize
    }

    /// Returns the key as a script writes it.
    pub fn text(self) -> &'static str
        ensures { result.now ≡ key_text self }
    {
        match self {
            Key::Below => "BELOW",
            Key::Above => "ABOVE",
            Key::Fill => "FILL",
            Key::Res => "RES",
            Key::Lv => "LV",
            Key::A => "A",
            Key::Sp => "SP",
            Key::Bndry => "BNDRY",
            Key::Loc => "LOC",
            Key::Startbdy => "STARTBDY",
            Key::Contbdy => "CONTBDY",
            Key::La => "LA",
            Key::Length => "LENGTH",
            Key::Addr => "ADDR",
            Key::Cond => "COND",
            Key::Cpid => "CPID",
            Key::Csize => "CSIZE",
            Key::Pcellct => "PCELLCT",
            Key::Scellct => "SCELLCT",
            Key::Cell => "CELL",
            Key::Task => "TASK",
            Key::Gspv => "GSPV",
            Key::Gspl => "GSPL",
            Key::Shspv => "SHSPV",
            Key::Shspl => "SHSPL",
            Key::Szero => "SZERO",
        }
    }

    /// Returns whether a text is the key as a script writes it.
    pub fn is(self, text: &[u8]) -> bool
        ensures { result ≡ bytes_eq (key_text self) text.now }
    {
        match self {
            Key::Below => text == b"BELOW".as_slice(),
            Key::Above => text == b"ABOVE".as_slice(),
            Key::Fill => text == b"FILL".as_slice(),
            Key::Res => text == b"RES".as_slice(),
            Key::Lv => text == b"LV".as_slice(),
            Key::A => text == b"A".as_slice(),
            Key::Sp => text == b"SP".as_slice(),
            Key::Bndry => text == b"BNDRY".as_slice(),
            Key::Loc => text == b"LOC".as_slice(),
            Key::Startbdy => text == b"STARTBDY".as_slice(),
            Key::Contbdy => text == b"CONTBDY".as_slice(),
            Key::La => text == b"LA".as_slice(),
            Key::Length => text == b"LENGTH".as_slice(),
            Key::Addr => text == b"ADDR".as_slice(),
            Key::Cond => text == b"COND".as_slice(),
            Key::Cpid => text == b"CPID".as_slice(),
            Key::Csize => text == b"CSIZE".as_slice(),
            Key::Pcellct => text == b"PCELLCT".as_slice(),
            Key::Scellct => text == b"SCELLCT".as_slice(),
            Key::Cell => text == b"CELL".as_slice(),
            Key::Task => text == b"TASK".as_slice(),
            Key::Gspv => text == b"GSPV".as_slice(),
            Key::Gspl => text == b"GSPL".as_slice(),
            Key::Shspv => text == b"SHSPV".as_slice(),
            Key::Shspl => text == b"SHSPL".as_slice(),
            Key::Szero => text == b"SZERO".as_slice(),
        }
    }
}
