// The accounts of a link as two lent arrays, balances and residuals: one read or kept, all taken apart or put together.
// Serves demand 2.
ghost use Rattle.std.specs.Prelude.{◌≡◌, ℕ, ◌<◌, List, length, if◌then◌else◌, slice_index, slice_set};
ghost use Rattle.state.specs.Account.{account_of, balance_of, residual_of, zip_accounts};
ghost use Rattle.tree.specs.Sum.{table};

use crate::{Account, Link};
use units::Bytes;

// The account of a class.
pub fn account_of(i: usize, balance: &[u64; 64], residual: &[u64; 64]) -> Account
    requires { (i < 64) × (length (zip_accounts balance.now residual.now) ≡ 64) }
    ensures { result ≡ account_of (zip_accounts balance.now residual.now) i }
{
    Account {
        balance: Bytes(balance[i]),
        residual: Bytes(residual[i]),
    }
}

// The account of a class is kept.
pub fn keep(i: usize, account: Account, balance: &mut [u64; 64], residual: &mut [u64; 64])
    requires { i < 64 }
    ensures { zip_accounts balance.new residual.new
        ≡ slice_set (zip_accounts balance.old residual.old) i account }
{
    balance[i] = account.balance.0;
    residual[i] = account.residual.0;
}

// The account of a class is kept where its residual is what it was.
pub fn keep_balance(i: usize, account: Account, balance: &mut [u64; 64])
    requires { i < 64 }
    ensures { (residual : List ℕ) → slice_index residual i ≡ account.residual.0
        → zip_accounts balance.new residual ≡ slice_set (zip_accounts balance.old residual) i account }
{
    balance[i] = account.balance.0;
}

// The balances of the accounts, and their residuals. Loops, and no `map`: a `map` of an array moves it whole, several times, and each call on
// a record by itself goes through both (docs/DESIGN-PASS.md).
pub fn balances(accounts: [Account; 64]) -> [u64; 64]
    ensures { result ≡ table (balance_of accounts) 64 }
{
    let mut out = [0u64; 64];
    for i in 0..Link::CLASSES {
        out[i] = accounts[i].balance.0;
    }
    out
}

pub fn residuals(accounts: [Account; 64]) -> [u64; 64]
    ensures { result ≡ table (residual_of accounts) 64 }
{
    let mut out = [0u64; 64];
    for i in 0..Link::CLASSES {
        out[i] = accounts[i].residual.0;
    }
    out
}

// And the accounts of both.
pub fn zipped(balance: &[u64; 64], residual: &[u64; 64]) -> [Account; 64]
    requires { length (zip_accounts balance.now residual.now) ≡ 64 }
    ensures { result ≡ zip_accounts balance.now residual.now }
{
    let none = Account::none();
    let mut out = [none; 64];
    for (i, account) in out.iter_mut().enumerate() {
        *account = account_of(i, balance, residual);
    }
    out
}
