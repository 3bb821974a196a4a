//! The calls of one request.

ghost use Rattle.std.specs.Prelude.{◌≡◌, [], ◌∷◌, IfOk};

use std::alloc::Global;
use std::marker::Model;
use zalloc::Memory;
use zcalls::Call;

/// The calls that a request makes, in order. Many requests make one call or none.
#[derive(Drop)]
pub struct Calls {
    calls: Vec<Call>,
}

impl Model for Calls {
    ghost use Rattle.std.specs.Prelude.{List};
    ghost use Rattle.zcalls.specs.declared.call.Call.{Call};

    ghost Value = { List Call };

    ghost view = { λ calls. calls.calls.items };
}

impl Calls {
    /// Wraps the calls.
    pub fn new(calls: Vec<Call>) -> Calls
        ensures { result ≡ calls.items }
    {
        Calls { calls }
    }

    /// Returns an empty list. Allocates nothing.
    pub fn none(alloc: Global) -> Calls
        ensures { result ≡ [] }
    {
        Calls {
            calls: Vec::new(alloc),
        }
    }

    /// Returns one call.
    pub fn one(alloc: Global, call: Call) -> Result<Calls, Memory>
        ensures { IfOk result (λ calls. calls ≡ call ∷ []) }
    {
        let mut calls = Vec::new(alloc);
        calls.push(call)?;
        Ok(Calls { calls })
    }

    /// Returns two calls.
    pub fn two(alloc: Global, first: Call, second: Call) -> Result<Calls, Memory>
        ensures { IfOk result (λ calls. calls ≡ first ∷ second ∷ []) }
    {
        let mut calls = Vec::new(alloc);
        calls.push(first)?;
        calls.push(second)?;
        Ok(Calls { calls })
    }

    /// Returns the calls in order.
    pub fn as_slice(&self) -> &[Call]
        ensures { result.now ≡ self.now }
    {
        &self.calls
    }

    /// Returns the calls, and consumes the wrapper.
    pub fn into_vec(self) -> Vec<Call>
        ensures { result.items ≡ self }
    {
        self.calls
    }
}
