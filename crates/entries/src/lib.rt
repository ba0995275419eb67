// What the slots used of the bus (document 02, wish 3, "Who used the bus"): the entries of an account, and the caller's table of them.
#![tactic(auto)]

ghost use Rattle.std.specs.Prelude.{◌≡◌};
ghost use Rattle.entries.specs.Entries.{zero_entry, sixteen_of, spread_of};

// What one slot has used: its STARTs and its busy cycles.
#[derive(Clone, Copy, Default, PartialEq, Eq)]
pub struct Entry {
    pub starts: u32,
    pub busy: u64,
}

impl Entry {
    // Nothing used.
    pub fn zero() -> Entry
        ensures { result ≡ zero_entry }
    {
        Entry::default()
    }
}

// The sixteen entries of an account that the caller lends. One that it lacks has nothing, and none past slot 15 is read.
pub fn gather(account: &[Entry]) -> [Entry; 16]
    ensures { result ≡ sixteen_of account.now }
{
    let mut entries = [Entry::zero(); 16];
    let held = account.len().min(16);
    // Stays: entry by entry, since of a caller's sixteen the compiler then copies what is read alone; `copy_from_slice` took `accounts::share` twice the time.
    for slot in 0..held {
        entries[slot] = account[slot];
    }
    entries
}

// Puts sixteen entries back into the account that the caller lends, as far as it goes; one past slot 15 stays.
pub fn spread(account: &mut [Entry], entries: [Entry; 16])
    ensures { account.new ≡ spread_of account.old entries }
{
    let room = account.len().min(16);
    account[..room].copy_from_slice(&entries[..room]);
}
