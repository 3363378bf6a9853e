//! The fields of a request by values, for a refusal that names one.

ghost use Rattle.std.specs.Prelude.{◌≡◌};
ghost use Rattle.mvs_c.specs.Fields.{offset};

/// A field of `RawRequest` that a refusal can name.
#[derive(Clone, Copy, Debug, PartialEq, Eq)]
pub enum RequestField {
    Size,
    Kind,
    Form,
    Subpool,
    Length,
    Least,
    Boundary,
    Within,
    Location,
    Address,
    Source,
    Primary,
    Secondary,
    Code,
    /// The subpool numbers that a subtask is given and shares.
    Subpools,
    Task,
    Name,
    /// An area of a list, or their number.
    Areas,
}

impl RequestField {
    /// Returns the offset of the field in bytes. The areas, which are no field, come after the struct.
    pub fn offset(self) -> u32
        ensures { result ≡ offset self }
    {
        match self {
            RequestField::Size => 0,
            RequestField::Kind => 4,
            RequestField::Form => 8,
            RequestField::Subpool => 12,
            RequestField::Length => 16,
            RequestField::Least => 20,
            RequestField::Boundary => 24,
            RequestField::Within => 28,
            RequestField::Location => 32,
            RequestField::Address => 36,
            RequestField::Source => 40,
            RequestField::Primary => 44,
            RequestField::Secondary => 48,
            RequestField::Code => 52,
            RequestField::Subpools => 64,
            RequestField::Task => 96,
            RequestField::Name => 104,
            RequestField::Areas => 112,
        }
    }
}
