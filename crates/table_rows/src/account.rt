// The record that each table keeps: limit, held size and entry count.
ghost use Rattle.std.specs.Prelude.{◌≡◌, ℕ, ◌+◌, ◌-◌, ◌≤◌, ◌<◌};
ghost use Rattle.table_rows.specs.Account.{fits, charged, released};

#[derive(Drop)]
pub struct Account {
    pub limit: u16,
    pub held: u16,
    pub count: u16,
}

impl Account {
    // Does an entry of this size stay within the limit? Nothing is subtracted: the held size may be above the limit.
    pub fn fits(self, size: u32) -> bool
        requires { size < 65536 }
        ensures { result ≡ fits self size }
    {
        (self.held as u32) + size <= (self.limit as u32)
    }
}

// Brings the record up to date when an entry of this size is put in.
fn charge(account: &mut Account, size: u16)
    requires { (account.old.held + size < 65536) × (account.old.count + 1 < 65536) }
    ensures { account.new ≡ charged account.old size }
{
    account.held = account.held + size;
    account.count = account.count + 1;
}

// Brings the record up to date when an entry of this size is freed.
fn release(account: &mut Account, size: u16)
    requires { (size ≤ account.old.held) × (1 ≤ account.old.count) }
    ensures { account.new ≡ released account.old size }
{
    account.held = account.held - size;
    account.count = account.count - 1;
}

// The record after an entry of this size is put in.
pub fn after_insert(limit: u16, held: u16, count: u16, size: u16) -> Account
    requires { (held + size < 65536) × (count + 1 < 65536) }
    ensures { result ≡ charged (record { limit = limit; held = held; count = count }) size }
{
    let mut account = Account { limit, held, count };
    charge(&mut account, size);
    account
}

// The record after an entry of this size is freed.
pub fn after_removal(limit: u16, held: u16, count: u16, size: u16) -> Account
    requires { (size ≤ held) × (1 ≤ count) }
    ensures { result ≡ released (record { limit = limit; held = held; count = count }) size }
{
    let mut account = Account { limit, held, count };
    release(&mut account, size);
    account
}
