//! The numbers of the kinds of request.

ghost use Rattle.std.specs.Prelude.{◌≡◌};
ghost use Rattle.zjute.specs.Asking.{op_of, op_among, middle_ops, late_ops, last_ops};

/// The kind of a request (`ZooDefs.OpCode`).
#[derive(Clone, Copy, PartialEq, Eq)]
pub(crate) enum Op {
    /// 1
    Create,
    /// 2
    Delete,
    /// 3
    Exists,
    /// 4
    GetData,
    /// 5
    SetData,
    /// 6
    GetAcl,
    /// 7
    SetAcl,
    /// 8
    GetChildren,
    /// 9
    Sync,
    /// 11
    Ping,
    /// 12
    GetChildren2,
    /// 13
    Check,
    /// 14
    Multi,
    /// 15
    Create2,
    /// 17
    CheckWatches,
    /// 18
    RemoveWatches,
    /// 19
    CreateContainer,
    /// 21
    CreateTtl,
    /// 22
    MultiRead,
    /// 100
    Auth,
    /// 101
    SetWatches,
    /// 102
    Sasl,
    /// 103
    GetEphemerals,
    /// 104
    GetAllChildrenNumber,
    /// 105
    SetWatches2,
    /// 106
    AddWatch,
    /// 107
    WhoAmI,
    /// -11
    CloseSession,
    /// Any other number.
    Other(i32),
}

impl Op {
    /// Returns the kind with this number.
    #[tactic(auto, unfolding(crate::specs::Asking::op_of))]
    pub(crate) fn of(number: i32) -> Op
        ensures { result ≡ op_of number }
    {
        match number {
            1 => Op::Create,
            2 => Op::Delete,
            3 => Op::Exists,
            4 => Op::GetData,
            5 => Op::SetData,
            6 => Op::GetAcl,
            7 => Op::SetAcl,
            8 => Op::GetChildren,
            _ => Op::among_middle(number),
        }
    }

    // The kinds from 9 on.
    #[tactic(auto, unfolding(crate::specs::Asking::middle_ops))]
    fn among_middle(number: i32) -> Op
        ensures { result ≡ op_among middle_ops number }
    {
        match number {
            9 => Op::Sync,
            11 => Op::Ping,
            12 => Op::GetChildren2,
            13 => Op::Check,
            14 => Op::Multi,
            15 => Op::Create2,
            17 => Op::CheckWatches,
            18 => Op::RemoveWatches,
            _ => Op::among_late(number),
        }
    }

    // The kinds from 19 on.
    #[tactic(auto, unfolding(crate::specs::Asking::late_ops))]
    fn among_late(number: i32) -> Op
        ensures { result ≡ op_among late_ops number }
    {
        match number {
            19 => Op::CreateContainer,
            21 => Op::CreateTtl,
            22 => Op::MultiRead,
            100 => Op::Auth,
            101 => Op::SetWatches,
            102 => Op::Sasl,
            103 => Op::GetEphemerals,
            _ => Op::among_last(number),
        }
    }

    // The kinds from 104 on, and below 0.
    #[tactic(auto, unfolding(crate::specs::Asking::last_ops))]
    fn among_last(number: i32) -> Op
        ensures { result ≡ op_among last_ops number }
    {
        match number {
            104 => Op::GetAllChildrenNumber,
            105 => Op::SetWatches2,
            106 => Op::AddWatch,
            107 => Op::WhoAmI,
            -11 => Op::CloseSession,
            _ => Op::Other(number),
        }
    }
}
