// Names and values of at most 16 bytes as two words, by which they are compared with the entries: those of the entries stand in tables.
ghost use Rattle.std.specs.Prelude.{◌≡◌, ℕ, ◌≤◌};
ghost use Rattle.statics.specs.Table.{last_static, static_name, static_value};
ghost use Rattle.static_search.specs.Ends.{ends_of};

use integers::number::TableIndex;
use memory::number::{u16_at, u32_at, u64_at};

// The word at the start and the word at the end, of eight, four, two or one bytes. They may overlap, and together they are all of it.
#[derive(Clone, Copy, PartialEq, Eq)]
pub struct Ends {
    pub first: u64,
    pub last: u64,
}

// The ends of `b`.
pub fn ends_of(b: &[u8]) -> Ends
    ensures { result ≡ ends_of b.now }
{
    let n = b.len();
    if 8 <= n {
        return Ends {
            first: u64_at(b, 0),
            last: u64_at(b, n - 8),
        };
    }
    if 4 <= n {
        return Ends {
            first: u32_at(b, 0) as u64,
            last: u32_at(b, n - 4) as u64,
        };
    }
    if 2 <= n {
        return Ends {
            first: u16_at(b, 0) as u64,
            last: u16_at(b, n - 2) as u64,
        };
    }
    if n == 1 {
        return Ends {
            first: b[0] as u64,
            last: b[0] as u64,
        };
    }
    Ends { first: 0, last: 0 }
}

// The ends of the name of an entry.
pub fn name_ends(index: TableIndex) -> Ends
    requires { (1 ≤ index.value) × (index.value ≤ last_static) }
    ensures { result ≡ ends_of (static_name index.value) }
{
    let (first, last) = NAME_ENDS[index.value as usize - 1];
    Ends { first, last }
}

// The ends of the value of an entry. Behind the first entries all values are empty.
pub fn value_ends(index: TableIndex) -> Ends
    requires { (1 ≤ index.value) × (index.value ≤ last_static) }
    ensures { result ≡ ends_of (static_value index.value) }
{
    let i = index.value as usize - 1;
    if VALUE_ENDS.len() <= i {
        return Ends { first: 0, last: 0 };
    }
    let (first, last) = VALUE_ENDS[i];
    Ends { first, last }
}

// The first and the last word of each name.
static NAME_ENDS: [(u64, u64); 61] = [
    (7598258015748579642, 8751735916104021109),
    (1952804154, 1685022836),
    (1952804154, 1685022836),
    (1952542778, 1752457584),
    (1952542778, 1752457584),
    (1751348026, 1701668200),
    (1751348026, 1701668200),
    (1635021626, 1937077345),
    (1635021626, 1937077345),
    (1635021626, 1937077345),
    (1635021626, 1937077345),
    (1635021626, 1937077345),
    (1635021626, 1937077345),
    (1635021626, 1937077345),
    (7146496209793016673, 8387236816145113901),
    (7290611397868872545, 7453010313431182949),
    (7795014556134368097, 7306916077306274156),
    (8227360120361935713, 8315166010788425076),
    (1701012321, 1953523043),
    (7146495123166290785, 7956003919315807607),
    (26465, 25959),
    (1869376609, 2003790956),
    (8820707168001226081, 7957695015159490930),
    (8026308874470646115, 7813589722905666349),
    (3275364211029340003, 7957695015293251440),
    (3275364211029340003, 7453010313431182949),
    (3275364211029340003, 7306916077306274156),
    (3275364211029340003, 7526754601088593268),
    (3275364211029340003, 7957695015157985132),
    (3275364211029340003, 7306930285238383726),
    (3275364211029340003, 7309475735108087397),
    (1802465123, 1701407599),
    (1702125924, 1702125924),
    (1734440037, 1734440037),
    (1701869669, 1952671088),
    (1768978533, 1936028265),
    (1836020326, 1836020326),
    (1953722216, 1953722216),
    (7521983764431201897, 7521983764431201897),
    (7379539894159107689, 7305804419708052581),
    (3271142129223427689, 7521983764431201646),
    (7306930285238380137, 7306930285238380137),
    (7237123447387416169, 7305804419708052581),
    (7237123168202350956, 7234304265016340333),
    (1802398060, 1802398060),
    (7957695015157985132, 7957695015157985132),
    (8607064322498650477, 8314896574974160742),
    (8458091574913364592, 7310575174728052325),
    (8458091574913364592, 7957695015159490930),
    (1735287154, 1701277281),
    (1701209458, 1919251045),
    (1919313266, 1752393074),
    (7377227664244106610, 8243122676037417330),
    (1987208563, 1919252082),
    (7741528756228220275, 7307489996739652980),
    (8371475252671313011, 8751735916204352883),
    (8243107338930713204, 7453010313431182949),
    (7306915768252593013, 8389754650524217957),
    (2037539190, 2037539190),
    (26998, 24937),
    (7526769937478023031, 7310575174728052325),
];

// Those of each value, up to the last that is not empty.
static VALUE_ENDS: [(u64, u64); 16] = [
    (0, 0),
    (17735, 21573),
    (1414745936, 1414745936),
    (47, 47),
    (7507070005745183023, 7813028919362741604),
    (1886680168, 1886680168),
    (1886680168, 1936749684),
    (12338, 12336),
    (12338, 13360),
    (12338, 13872),
    (12339, 13360),
    (12340, 12336),
    (12340, 13360),
    (12341, 12336),
    (0, 0),
    (7305999870738397799, 7310575213331440672),
];
