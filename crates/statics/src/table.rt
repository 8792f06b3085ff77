// The 61 entries. Their text is one string, which a caller makes once and lends; their places are a `match`, which
// the compiler turns into a table in read-only memory.
ghost use Rattle.std.specs.Prelude.{◌≡◌, ℕ, ◌+◌, ◌≤◌, length};
ghost use Rattle.statics.specs.Table.{last_static, static_text, static_name, static_value, place_of};

use integers::number::TableIndex;

pub const LAST: u32 = 61;

// Where an entry stands in the static text: its name starts at `start`, its value after its name.
#[derive(Drop)]
pub struct StaticPlace {
    pub start: u16,
    pub name: u8,
    pub value: u8,
}

// Names and values, one after another.
pub fn static_text() -> [u8; 684]
    ensures { result ≡ static_text }
{
    *b":authority:methodGET:methodPOST:path/:path/index.html:schemehttp:schemehttps:status200:status204:status206:status304:status400:status404:status500accept-charsetaccept-encodinggzip, deflateaccept-languageaccept-rangesacceptaccess-control-allow-originageallowauthorizationcache-controlcontent-dispositioncontent-encodingcontent-languagecontent-lengthcontent-locationcontent-rangecontent-typecookiedateetagexpectexpiresfromhostif-matchif-modified-sinceif-none-matchif-rangeif-unmodified-sincelast-modifiedlinklocationmax-forwardsproxy-authenticateproxy-authorizationrangerefererrefreshretry-afterserverset-cookiestrict-transport-securitytransfer-encodinguser-agentvaryviawww-authenticate"
}

// The name of an entry, as a part of the static text.
pub fn static_name(text: &[u8], index: TableIndex) -> &[u8]
    requires text_value { text.now ≡ static_text }
    requires le_value { (1 ≤ index.value) × (index.value ≤ last_static) }
    ensures { result.now ≡ static_name index.value }
{
    let p = static_place(index);
    let a = p.start as usize;
    let e = a + (p.name as usize);
    &text[a..e]
}

// The value of an entry, as a part of the static text.
pub fn static_value(text: &[u8], index: TableIndex) -> &[u8]
    requires text_value { text.now ≡ static_text }
    requires le_value { (1 ≤ index.value) × (index.value ≤ last_static) }
    ensures { result.now ≡ static_value index.value }
{
    let p = static_place(index);
    let a = (p.start as usize) + (p.name as usize);
    let e = a + (p.value as usize);
    &text[a..e]
}

// Where an entry stands.
#[tactic(auto, unfolding(crate::specs::Table::place_of, crate::specs::Table::place_in, crate::specs::Table::entries))]
pub fn static_place(index: TableIndex) -> StaticPlace
    requires { (1 ≤ index.value) × (index.value ≤ last_static) }
    ensures { result ≡ place_of index.value }
{
    let i = index.value;
    match i {
        1 => place(0, 10, 0),
        2 => place(10, 7, 3),
        3 => place(20, 7, 4),
        4 => place(31, 5, 1),
        5 => place(37, 5, 11),
        6 => place(53, 7, 4),
        7 => place(64, 7, 5),
        8 => place(76, 7, 3),
        9 => place(86, 7, 3),
        10 => place(96, 7, 3),
        11 => place(106, 7, 3),
        12 => place(116, 7, 3),
        13 => place(126, 7, 3),
        14 => place(136, 7, 3),
        15 => place(146, 14, 0),
        16 => place(160, 15, 13),
        17 => place(188, 15, 0),
        18 => place(203, 13, 0),
        19 => place(216, 6, 0),
        20 => place(222, 27, 0),
        21 => place(249, 3, 0),
        22 => place(252, 5, 0),
        23 => place(257, 13, 0),
        24 => place(270, 13, 0),
        25 => place(283, 19, 0),
        26 => place(302, 16, 0),
        27 => place(318, 16, 0),
        28 => place(334, 14, 0),
        29 => place(348, 16, 0),
        30 => place(364, 13, 0),
        31 => place(377, 12, 0),
        32 => place(389, 6, 0),
        33 => place(395, 4, 0),
        34 => place(399, 4, 0),
        35 => place(403, 6, 0),
        36 => place(409, 7, 0),
        37 => place(416, 4, 0),
        38 => place(420, 4, 0),
        39 => place(424, 8, 0),
        40 => place(432, 17, 0),
        41 => place(449, 13, 0),
        42 => place(462, 8, 0),
        43 => place(470, 19, 0),
        44 => place(489, 13, 0),
        45 => place(502, 4, 0),
        46 => place(506, 8, 0),
        47 => place(514, 12, 0),
        48 => place(526, 18, 0),
        49 => place(544, 19, 0),
        50 => place(563, 5, 0),
        51 => place(568, 7, 0),
        52 => place(575, 7, 0),
        53 => place(582, 11, 0),
        54 => place(593, 6, 0),
        55 => place(599, 10, 0),
        56 => place(609, 25, 0),
        57 => place(634, 17, 0),
        58 => place(651, 10, 0),
        59 => place(661, 4, 0),
        60 => place(665, 3, 0),
        _ => place(668, 16, 0),
    }
}

// A place by its three numbers, so that the table above has a line for each entry.
fn place(start: u16, name: u8, value: u8) -> StaticPlace
    ensures { result ≡ record { start = start; name = name; value = value } }
{
    StaticPlace { start, name, value }
}
