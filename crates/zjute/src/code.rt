//! The codes of errors.

/// The code in a reply's header, by its number (`KeeperException.Code`).
#[derive(Clone, Copy, Debug, PartialEq, Eq)]
pub enum Code {
    /// 0: no error.
    Ok,
    /// -1: a system error.
    SystemError,
    /// -2: a runtime inconsistency. The parts of a multi after the refused one have it.
    RuntimeInconsistency,
    /// -3: the data is inconsistent.
    DataInconsistency,
    /// -4: the connection was lost.
    ConnectionLoss,
    /// -5: the bytes of the request can't be decoded.
    MarshallingError,
    /// -6: the operation isn't implemented.
    Unimplemented,
    /// -7: the operation timed out.
    OperationTimeout,
    /// -8: the arguments are invalid.
    BadArguments,
    /// -12: the session is unknown.
    UnknownSession,
    /// -13: no quorum of the new configuration is connected.
    NewConfigNoQuorum,
    /// -14: another reconfiguration is in flight.
    ReconfigInProgress,
    /// -100: an API error.
    ApiError,
    /// -101: the node doesn't exist.
    NoNode,
    /// -102: the client isn't authorized.
    NoAuth,
    /// -103: the node has another version.
    BadVersion,
    /// -108: an ephemeral node has no children.
    NoChildrenForEphemerals,
    /// -110: the node exists.
    NodeExists,
    /// -111: the node has children.
    NotEmpty,
    /// -112: the session has expired.
    SessionExpired,
    /// -113: the callback is invalid.
    InvalidCallback,
    /// -114: the ACL is invalid.
    InvalidAcl,
    /// -115: authentication failed.
    AuthFailed,
    /// -118: the session has moved to another server.
    SessionMoved,
    /// -119: the server is read-only.
    NotReadOnly,
    /// -120: an ephemeral node of a local session.
    EphemeralOnLocalSession,
    /// -121: there is no such watch.
    NoWatcher,
    /// -122: the request timed out.
    RequestTimeout,
    /// -123: reconfiguration is disabled.
    ReconfigDisabled,
    /// -124: the session was closed because SASL authentication is required.
    SessionClosedRequireSaslAuth,
    /// -125: a quota was exceeded.
    QuotaExceeded,
    /// -127: the server is overloaded.
    ThrottledOp,
}

impl Code {
    ghost use Rattle.std.specs.Prelude.{◌≡◌};
    ghost use Rattle.zjute.specs.Codes.{code_number, code_of, middle_codes, late_codes, last_codes};
    ghost use Rattle.zjute.specs.Shapes.{with_number};

    /// Returns its number.
    pub fn number(self) -> i32
        ensures { result ≡ code_number self }
    {
        match self {
            Code::Ok => 0,
            Code::SystemError => -1,
            Code::RuntimeInconsistency => -2,
            Code::DataInconsistency => -3,
            Code::ConnectionLoss => -4,
            Code::MarshallingError => -5,
            Code::Unimplemented => -6,
            Code::OperationTimeout => -7,
            Code::BadArguments => -8,
            Code::UnknownSession => -12,
            Code::NewConfigNoQuorum => -13,
            Code::ReconfigInProgress => -14,
            Code::ApiError => -100,
            Code::NoNode => -101,
            Code::NoAuth => -102,
            Code::BadVersion => -103,
            Code::NoChildrenForEphemerals => -108,
            Code::NodeExists => -110,
            Code::NotEmpty => -111,
            Code::SessionExpired => -112,
            Code::InvalidCallback => -113,
            Code::InvalidAcl => -114,
            Code::AuthFailed => -115,
            Code::SessionMoved => -118,
            Code::NotReadOnly => -119,
            Code::EphemeralOnLocalSession => -120,
            Code::NoWatcher => -121,
            Code::RequestTimeout => -122,
            Code::ReconfigDisabled => -123,
            Code::SessionClosedRequireSaslAuth => -124,
            Code::QuotaExceeded => -125,
            Code::ThrottledOp => -127,
        }
    }

    /// Returns the code with this number, or `None` if there is none.
    #[tactic(auto, unfolding(crate::specs::Codes::code_of))]
    pub fn of(number: i32) -> Option<Code>
        ensures { result ≡ code_of number }
    {
        match number {
            0 => Some(Code::Ok),
            -1 => Some(Code::SystemError),
            -2 => Some(Code::RuntimeInconsistency),
            -3 => Some(Code::DataInconsistency),
            -4 => Some(Code::ConnectionLoss),
            -5 => Some(Code::MarshallingError),
            -6 => Some(Code::Unimplemented),
            -7 => Some(Code::OperationTimeout),
            _ => Code::among_middle(number),
        }
    }

    // The same from -8 on.
    #[tactic(auto, unfolding(crate::specs::Codes::middle_codes))]
    fn among_middle(number: i32) -> Option<Code>
        ensures { result ≡ with_number code_number middle_codes number }
    {
        match number {
            -8 => Some(Code::BadArguments),
            -12 => Some(Code::UnknownSession),
            -13 => Some(Code::NewConfigNoQuorum),
            -14 => Some(Code::ReconfigInProgress),
            -100 => Some(Code::ApiError),
            -101 => Some(Code::NoNode),
            -102 => Some(Code::NoAuth),
            -103 => Some(Code::BadVersion),
            _ => Code::among_late(number),
        }
    }

    // The same from -108 on.
    #[tactic(auto, unfolding(crate::specs::Codes::late_codes))]
    fn among_late(number: i32) -> Option<Code>
        ensures { result ≡ with_number code_number late_codes number }
    {
        match number {
            -108 => Some(Code::NoChildrenForEphemerals),
            -110 => Some(Code::NodeExists),
            -111 => Some(Code::NotEmpty),
            -112 => Some(Code::SessionExpired),
            -113 => Some(Code::InvalidCallback),
            -114 => Some(Code::InvalidAcl),
            -115 => Some(Code::AuthFailed),
            -118 => Some(Code::SessionMoved),
            _ => Code::among_last(number),
        }
    }

    // The same from -119 on.
    #[tactic(auto, unfolding(crate::specs::Codes::last_codes))]
    fn among_last(number: i32) -> Option<Code>
        ensures { result ≡ with_number code_number last_codes number }
    {
        match number {
            -119 => Some(Code::NotReadOnly),
            -120 => Some(Code::EphemeralOnLocalSession),
            -121 => Some(Code::NoWatcher),
            -122 => Some(Code::RequestTimeout),
            -123 => Some(Code::ReconfigDisabled),
            -124 => Some(Code::SessionClosedRequireSaslAuth),
            -125 => Some(Code::QuotaExceeded),
            -127 => Some(Code::ThrottledOp),
            _ => None,
        }
    }
}
