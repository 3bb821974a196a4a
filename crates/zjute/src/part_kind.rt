//! The numbers of the kinds of part.

ghost use Rattle.std.specs.Prelude.{◌≡◌};
ghost use Rattle.zjute.specs.Parts.{part_kind_of, look_kind_of};

/// The kind of a part of a multi (`ZooDefs.OpCode`).
#[derive(Clone, Copy, PartialEq, Eq)]
pub(crate) enum PartKind {
    /// 1
    Create,
    /// 2
    Delete,
    /// 5
    SetData,
    /// 13
    Check,
    /// 15
    Create2,
    /// 19
    CreateContainer,
    /// 21
    CreateTtl,
}

impl PartKind {
    /// Returns the kind with this number, if there is one.
    pub(crate) fn of(number: i32) -> Option<PartKind>
        ensures { result ≡ part_kind_of number }
    {
        match number {
            1 => Some(PartKind::Create),
            2 => Some(PartKind::Delete),
            5 => Some(PartKind::SetData),
            13 => Some(PartKind::Check),
            15 => Some(PartKind::Create2),
            19 => Some(PartKind::CreateContainer),
            21 => Some(PartKind::CreateTtl),
            _ => None,
        }
    }
}

/// The kind of a part of a multiRead (`ZooDefs.OpCode`).
#[derive(Clone, Copy, PartialEq, Eq)]
pub(crate) enum LookKind {
    /// 4
    GetData,
    /// 8
    GetChildren,
}

impl LookKind {
    /// Returns the kind with this number, if there is one.
    pub(crate) fn of(number: i32) -> Option<LookKind>
        ensures { result ≡ look_kind_of number }
    {
        match number {
            4 => Some(LookKind::GetData),
            8 => Some(LookKind::GetChildren),
            _ => None,
        }
    }
}
