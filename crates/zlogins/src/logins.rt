//! All logins.

ghost use Rattle.std.specs.Prelude.{◌≡◌, Ok, IfErr, IfOk};
ghost use Rattle.zlogins.specs.Logins.{is_among, is_listed};
ghost use Rattle.zlogins.specs.Reading.{IsFaultOf, logins_in};

use crate::fault::LoginsFault;
use crate::login::Login;
use crate::reading::read;
use crate::spelling::login_of;
use std::alloc::Global;
use std::marker::Model;
use zalloc::Memory;

/// The logins of those who may make calls.
#[derive(Drop)]
pub struct Logins {
    all: Vec<Login>,
}

impl Model for Logins {
    ghost use Rattle.std.specs.Prelude.{ℕ, List};

    ghost Value = { List (List ℕ) };

    ghost view = { λ logins. logins.all.items };
}

impl Logins {
    /// Reads a text with a login on each line, `digest user:hash`. Empty lines are skipped. One
    /// login is needed. The fault is that of the first line that has one.
    pub fn read(alloc: Global, text: &[u8]) -> Result<Logins, LoginsFault>
        ensures found { IfOk result (λ logins. logins_in text.now ≡ Ok logins) }
        ensures fault { IfErr result (IsFaultOf (logins_in text.now)) }
    {
        let all = read(alloc, text)?;
        if all.is_empty() {
            return Err(LoginsFault::Empty);
        }
        Ok(Logins { all })
    }

    /// Returns whether a `user:password` is that of one of the logins. It is compared with each,
    /// also after one that it is.
    pub fn has(&self, alloc: Global, given: &[u8]) -> Result<bool, Memory>
        ensures { IfOk result (λ has. has ≡ is_listed self.now given.now) }
    {
        let login = login_of(alloc, given)?;
        Ok(is_among(&login, &self.all))
    }
}

// Returns whether the login is one of these. It is compared with each.
fn is_among(login: &[u8], all: &[Login]) -> bool
    ensures { result ≡ is_among login.now all.now }
{
    let mut has = false;
    'all: for one in all {
        has |= one.is_same(login);
    }
    has
}
