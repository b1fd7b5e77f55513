//! Keeps which calls of each seat are settled, and the numbers of those that are due.
ghost use Rattle.std.specs.Prelude.{◌≡◌, ◌+◌, ◌<◌, ◌^◌, IfOk, OnOk, length};
ghost use Rattle.hub.specs.Ledgers.{cleared, noted};
ghost use Rattle.hub.specs.LedgerViews.{HasPlace, account_in, fresh, ledger_in, opened_for};

use crate::settled::Settled;
use std::alloc::{AllocError, Global};

/// Keeps which calls of one seat are settled, and the numbers of those that are due.
#[derive(Drop)]
pub(crate) struct Account {
    /// Says which are settled.
    pub(crate) settled: Settled,
    /// Holds the numbers of its accepted calls that are not settled, in order.
    pub(crate) due: Vec<u64>,
}

/// Keeps the accounts of all seats.
#[derive(Drop)]
pub(crate) struct Ledger {
    /// Holds them by the seats' numbers.
    pub(crate) accounts: Vec<Account>,
    /// Counts the accepted calls of seats of other hubs.
    pub(crate) strangers: u64,
    /// Counts the calls that are settled.
    pub(crate) settled: u64,
}

impl Account {
    // Makes the account of a seat that was just opened. Takes no memory.
    fn new(alloc: Global) -> Account
        ensures { account_in result ≡ fresh }
    {
        Account {
            settled: Settled::none(),
            due: Vec::new(alloc),
        }
    }
}

impl Ledger {
    /// Makes the accounts of `seats` new seats.
    #[tactic(auto, unfolding(crate::specs::LedgerViews::ledger_in))]
    pub(crate) fn new(alloc: Global, seats: u64) -> Result<Ledger, AllocError>
        ensures { IfOk result (λ l. ledger_in l ≡ opened_for seats) }
    {
        let mut accounts = Vec::new(alloc);
        for _ in 0..seats {
            accounts.push(Account::new(alloc))?;
        }
        Ok(Ledger {
            accounts,
            strangers: 0,
            settled: 0,
        })
    }

    /// Makes room for one more number of this seat.
    #[tactic(auto, unfolding(crate::specs::LedgerViews::ledger_in))]
    pub(crate) fn reserve(&mut self, seat: u64) -> Result<(), AllocError>
        ensures same { ledger_in self.new ≡ ledger_in self.old }
        ensures ok { OnOk result (HasPlace self.new seat) }
    {
        let index = seat as usize;
        if index < self.accounts.len() {
            self.accounts[index].due.reserve(1)?;
        }
        Ok(())
    }

    /// Notes an accepted call of this number, by this seat. Takes no memory.
    #[tactic(auto, unfolding(crate::specs::LedgerViews::ledger_in))]
    pub(crate) fn note(&mut self, seat: u64, number: u64)
        requires place { HasPlace self.old seat }
        requires strangers { (ledger_in self.old).strangers < 2 ^ 63 }
        ensures { ledger_in self.new ≡ noted (ledger_in self.old) seat number }
    {
        let index = seat as usize;
        if index < self.accounts.len() {
            self.accounts[index].due.push_reserved(number);
        } else {
            self.strangers += 1;
        }
    }

    /// Notes that a seat settled, and what is settled of it now. Takes no memory.
    #[tactic(auto, unfolding(crate::specs::LedgerViews::ledger_in))]
    pub(crate) fn settle(&mut self, alloc: Global, seat: u64, settled: Settled, count: u64)
        requires seat { seat < length (ledger_in self.old).accounts }
        requires count { (ledger_in self.old).settled + count < 2 ^ 64 }
        ensures { ledger_in self.new ≡ cleared (ledger_in self.old) seat settled count }
    {
        let account = Account {
            settled,
            due: Vec::new(alloc),
        };
        self.accounts[seat as usize] = account;
        self.settled += count;
    }
}
