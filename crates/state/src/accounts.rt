// What an account is after each step on it (R87 to R92): it is taken and handed back changed. Named for specs/Account.
// Serves demands 2 and 3.
ghost use Rattle.std.specs.Prelude.{◌≡◌, ◌+◌, ◌^◌, ◌<◌, ◌≤◌};
ghost use Rattle.state.specs.Account.{no_account, took_size, took_quota, handed_down, sent_from, gained, returned, received, funds_of};

use crate::Account;
use units::Bytes;

impl Account {
    // The account with nothing in it.
    pub fn none() -> Account
        ensures { result ≡ no_account }
    {
        Account {
            balance: Bytes(0),
            residual: Bytes(0),
        }
    }

    // A class takes its residual and its due into its balance.
    pub fn take_quota(self, due: Bytes) -> Account
        requires { self.balance.0 + self.residual.0 + due.0 < 2 ^ 64 }
        ensures { result ≡ took_quota self due.0 }
    {
        let balance = self.balance;
        let residual = self.residual;
        Account {
            balance: balance.plus(residual).plus(due),
            residual: Bytes(0),
        }
    }

    // The root takes the difference between two sizes, once its residual has joined its balance.
    pub fn take_size(self, old: Bytes, size: Bytes) -> Account
        requires { (self.balance.0 + self.residual.0 + size.0 < 2 ^ 64)
            × (old.0 ≤ self.balance.0 + self.residual.0 + size.0) }
        ensures { result ≡ took_size self old.0 size.0 }
    {
        let balance = self.balance;
        let residual = self.residual;
        Account {
            balance: balance.plus(residual).plus(size).less(old),
            residual: Bytes(0),
        }
    }

    // A parent's balance falls by what it hands down.
    pub fn hand_down(self, due: Bytes) -> Account
        requires { due.0 ≤ self.balance.0 }
        ensures { result ≡ handed_down self due.0 }
    {
        let balance = self.balance;
        let residual = self.residual;
        Account {
            balance: balance.less(due),
            residual,
        }
    }

    // A leaf loses what its packet costs.
    pub fn send(self, cost: Bytes) -> Account
        requires { cost.0 ≤ self.balance.0 }
        ensures { result ≡ sent_from self cost.0 }
    {
        let balance = self.balance;
        let residual = self.residual;
        Account {
            balance: balance.less(cost),
            residual,
        }
    }

    // The root's balance gains what a packet cost.
    pub fn gain(self, cost: Bytes) -> Account
        requires { self.balance.0 + cost.0 < 2 ^ 64 }
        ensures { result ≡ gained self cost.0 }
    {
        let balance = self.balance;
        let residual = self.residual;
        Account {
            balance: balance.plus(cost),
            residual,
        }
    }

    // A class that turns inactive keeps nothing.
    pub fn return_balance(self) -> Account
        ensures { result ≡ returned self }
    {
        Account::none()
    }

    // A parent's residual gains what such a class held.
    pub fn receive(self, given: Bytes) -> Account
        requires { self.residual.0 + given.0 < 2 ^ 64 }
        ensures { result ≡ received self given.0 }
    {
        let balance = self.balance;
        let residual = self.residual;
        Account {
            balance,
            residual: residual.plus(given),
        }
    }

    // B + R: what the surplus test reads, and what a class that turns inactive gives to its parent.
    pub fn funds(self) -> Bytes
        requires { self.balance.0 + self.residual.0 < 2 ^ 64 }
        ensures { result.0 ≡ funds_of self }
    {
        let balance = self.balance;
        let residual = self.residual;
        balance.plus(residual)
    }
}
