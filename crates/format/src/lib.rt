// The record of a shortcut, and the answers that calls give.
#![tactic(auto)]

ghost use Rattle.std.specs.Prelude.{◌≡◌, cond, ◌+◌, ◌<◌, ◌^◌};
ghost use Rattle.format.specs.Numbers.{number_of};
ghost use Rattle.format.specs.Tests.{section as section_from, spot_at, bit, one_or_0};
ghost use Rattle.format.specs.Presence.{items_there, info_there, name_bit, relative_bit, workdir_bit, arguments_bit, icon_bit, string_there, strings_unicode, local_there, network_there, local_unicode_there, device_there, provider_there, device_unicode_there};
ghost use Rattle.format.specs.Header.{signed};
ghost use Rattle.format.specs.Volume.{label_of, label_place, label_kind, label_least};
ghost use Rattle.format.specs.Network.{network_head};
ghost use Rattle.format.specs.Writing.{bits};
ghost use Rattle.format.specs.Steps.Answers.{refusal};
ghost use Rattle.format.specs.Steps.Shape.{shape_of};

// Where a body stands in the body buffer, and how many bytes it has.
#[derive(Clone, Copy)]
pub struct Place {
    pub at: usize,
    pub len: usize,
}

// The nine header fields that vary.
#[derive(Clone, Copy)]
pub struct Header {
    pub flags: u32,
    pub attributes: u32,
    pub creation: u64,
    pub access: u64,
    pub write: u64,
    pub file_size: u32,
    pub icon_index: i32,
    pub command: u32,
    pub hotkey: u16,
}

// ---- what LinkInfo's reader answers

// A label has a kind, and with either kind a place.
#[derive(Clone, Copy)]
pub enum Label {
    Byte(Place),
    Unicode(Place),
}

#[derive(Clone, Copy)]
pub struct Volume {
    pub drive: u32,
    pub serial: u32,
    pub label: Label,
}

#[derive(Clone, Copy)]
pub struct Network {
    pub flags: u32,
    pub provider: u32,
    pub unicode: bool,
    pub net: Place,
    pub device: Place,
    pub net_unicode: Place,
    pub device_unicode: Place,
}

#[derive(Clone, Copy)]
pub struct Info {
    pub flags: u32,
    pub long: bool,
    pub volume: Volume,
    pub local: Place,
    pub network: Network,
    pub suffix: Place,
    pub local_unicode: Place,
    pub suffix_unicode: Place,
    pub further: Place,
}

// LinkInfo's numbers and kinds.
#[derive(Clone, Copy)]
pub struct Link {
    pub flags: u32,
    pub long: bool,
    pub drive: u32,
    pub serial: u32,
    pub label_unicode: bool,
    pub network_flags: u32,
    pub provider: u32,
    pub network_unicode: bool,
}

// The places stand in one row, each body's in a slot of its own.
#[derive(Clone, Copy)]
pub struct Record {
    pub header: Header,
    pub link: Link,
    pub places: [Place; 17],
}

// ---- the slots, in the order of the fields at the boundary; a string's slot is 8 more than its flag bit
// Numbers and no enum: rows are gone over by ranges of them, and C has the bodies in this order.

pub const ITEMS: usize = 0;

pub const LABEL: usize = 1;

pub const LOCAL: usize = 2;

pub const NET: usize = 3;

pub const DEVICE: usize = 4;

pub const NET_UNICODE: usize = 5;

pub const DEVICE_UNICODE: usize = 6;

pub const SUFFIX: usize = 7;

pub const LOCAL_UNICODE: usize = 8;

pub const SUFFIX_UNICODE: usize = 9;

pub const STRINGS: usize = 10;

pub const WORKDIR: usize = 12;

pub const ARGUMENTS: usize = 13;

pub const BLOCKS: usize = 15;

pub const FURTHER: usize = 16;

// Of a slot: whether its body is there, and whether its characters have two bytes each.
#[derive(Clone, Copy)]
pub struct Slot {
    pub there: bool,
    pub wide: bool,
}

// The whole row of them.
pub type Shape = [Slot; 17];

// A row of a store's list: a storage (kind 0), or a value named by number (1) or by string (2).
// Rows come from C, and any kind is a row.
#[derive(Clone, Copy)]
pub struct StoreRow {
    pub kind: u64,
    pub number: u64,
    pub name: Place,
    pub raw: Place,
}

// The rules that a call goes by: as they stand, or with what shortcuts of Windows 95 are forgiven.
#[derive(Clone, Copy)]
pub enum Profile {
    Strict,
    NinetyFive,
}

// Why a call refuses: the table of numbers (FORMAT: Numbers).
#[derive(Clone, Copy)]
pub enum Fault {
    Long = 1,
    Cut = 2,
    Magic = 3,
    Head = 4,
    Items = 5,
    Info = 6,
    Piece = 7,
    Block = 8,
    Trail = 9,
    Place = 10,
    Unwritable = 11,
    Room = 12,
    NoTarget = 13,
    Twice = 14,
    Store = 15,
    NoMap = 16,
    Shelf = 17,
    Entry = 18,
    Lost = 19,
}

// Where a refusal stands: the number of the section at fault as in the listing, its first byte, and the first byte of the field found wrong.
#[derive(Clone, Copy)]
pub struct Spot {
    pub section: u32,
    pub start: usize,
    pub position: usize,
}

// A section is refused: why, and where.
#[derive(Clone, Copy)]
pub struct Refusal {
    pub fault: Fault,
    pub spot: Spot,
}

// A call refuses: why, and the position that goes with the fault.
#[derive(Clone, Copy)]
pub struct Refused {
    pub fault: Fault,
    pub position: usize,
}

// Accepted with the length, or refused.
pub type Verdict = Result<usize, Refused>;

// What reading answers: the record stands beside the verdict, all zeros where that is a refusal, as in the definition `reading`.
#[derive(Clone, Copy)]
pub struct Reading {
    pub verdict: Verdict,
    pub held: Record,
}

// What can be kept of a shortcut: the number it was refused with, how many of its first bytes, and whether a zero terminal goes behind them.
#[derive(Clone, Copy)]
pub struct Rescue {
    pub number: u8,
    pub kept: usize,
    // Both ways to be kept have the number and the length, so this is a flag and no case.
    pub mended: bool,
}

// What salvage answers where something is saved: the length of the result, the number that the shortcut was refused with, and how many of its bytes are kept and dropped.
#[derive(Clone, Copy)]
pub struct Salvaged {
    pub len: usize,
    pub number: u8,
    pub kept: usize,
    pub dropped: usize,
}

// ---- zeros, for what is absent and beside a refusal: constants, since functions made a check a tenth dearer

pub const NO_PLACE: Place = Place { at: 0, len: 0 };

const NO_HEADER: Header = Header {
    flags: 0,
    attributes: 0,
    creation: 0,
    access: 0,
    write: 0,
    file_size: 0,
    icon_index: 0,
    command: 0,
    hotkey: 0,
};

pub const NO_LINK: Link = Link {
    flags: 0,
    long: false,
    drive: 0,
    serial: 0,
    label_unicode: false,
    network_flags: 0,
    provider: 0,
    network_unicode: false,
};

pub const NO_RECORD: Record = Record {
    header: NO_HEADER,
    link: NO_LINK,
    places: [NO_PLACE; 17],
};

// The number of a fault: a cast, by the definition's name.
#[tactic(auto, unfolding(crate::specs::Numbers::number_of))]
pub fn number_of(f: Fault) -> u8
    ensures { result ≡ number_of f }
{
    f as u8
}

// Whether the number has bit K.
pub fn bit<const K: u32>(n: u32) -> bool
    requires { K < 32 }
    ensures { result ≡ bit K n }
{
    (n >> K) % 2 == 1
}

impl Refusal {
    // For the field that stands so many bytes after the start of its section.
    pub fn at(fault: Fault, section: u32, start: usize, field: usize) -> Self
        requires { start + field < 2 ^ 64 }
        ensures { result ≡ refusal fault (spot_at (section_from section start) field) }
    {
        Refusal {
            fault,
            spot: Spot {
                section,
                start,
                position: start + field,
            },
        }
    }
}

impl Refused {
    pub fn at(fault: Fault, position: usize) -> Self
        ensures { result ≡ record { fault = fault; position = position } }
    {
        Refused { fault, position }
    }
}

// Of where a section is refused, a call tells the position alone.
impl From<Refusal> for Refused {
    ghost from_gives = { λ r e. e ≡ record { fault = r.fault; position = r.spot.position } };

    fn from(r: Refusal) -> Refused {
        Refused::at(r.fault, r.spot.position)
    }
}

// A test, with the field that it is of.
pub fn demand(holds: bool, field: usize) -> Result<(), usize>
    ensures { result ≡ cond holds (Ok tt) (Err field) }
{
    if holds { Ok(()) } else { Err(field) }
}

// ---- what makes each part present

// By LinkFlags. Each has a name, as in the rules and the definitions.
pub fn items_there(flags: u32) -> bool
    ensures { result ≡ items_there flags }
{
    bit::<0>(flags)
}

pub fn info_there(flags: u32) -> bool
    ensures { result ≡ info_there flags }
{
    bit::<1>(flags)
}

pub fn name_there(flags: u32) -> bool
    ensures { result ≡ string_there name_bit flags }
{
    bit::<2>(flags)
}

pub fn relative_there(flags: u32) -> bool
    ensures { result ≡ string_there relative_bit flags }
{
    bit::<3>(flags)
}

pub fn workdir_there(flags: u32) -> bool
    ensures { result ≡ string_there workdir_bit flags }
{
    bit::<4>(flags)
}

pub fn arguments_there(flags: u32) -> bool
    ensures { result ≡ string_there arguments_bit flags }
{
    bit::<5>(flags)
}

pub fn icon_there(flags: u32) -> bool
    ensures { result ≡ string_there icon_bit flags }
{
    bit::<6>(flags)
}

pub fn strings_unicode(flags: u32) -> bool
    ensures { result ≡ strings_unicode flags }
{
    bit::<7>(flags)
}

// By LinkInfo's flags, and by whether its head is long.
pub fn local_there(flags: u32) -> bool
    ensures { result ≡ local_there flags }
{
    bit::<0>(flags)
}

pub fn network_there(flags: u32) -> bool
    ensures { result ≡ network_there flags }
{
    bit::<1>(flags)
}

pub fn local_unicode_there(long: bool, flags: u32) -> bool
    ensures { result ≡ local_unicode_there long flags }
{
    long & local_there(flags)
}

// By the network link's flags, and by whether it has Unicode names.
pub fn device_there(flags: u32) -> bool
    ensures { result ≡ device_there flags }
{
    bit::<0>(flags)
}

pub fn provider_there(flags: u32) -> bool
    ensures { result ≡ provider_there flags }
{
    bit::<1>(flags)
}

pub fn device_unicode_there(unicode: bool, flags: u32) -> bool
    ensures { result ≡ device_unicode_there unicode flags }
{
    unicode & device_there(flags)
}

impl Slot {
    fn of(there: bool, wide: bool) -> Self
        ensures { result ≡ record { there = there; wide = wide } }
    {
        Slot { there, wide }
    }
}

// The whole row, slot by slot.
#[tactic(auto, unfolding(crate::specs::Steps::Shape::shape_of))]
pub fn shape_of(flags: u32, l: Link) -> Shape
    ensures { result ≡ shape_of flags l }
{
    let info = info_there(flags);
    let local = info & local_there(l.flags);
    let network = info & network_there(l.flags);
    let unicode = strings_unicode(flags);
    [
        Slot::of(items_there(flags), false),
        Slot::of(local, l.label_unicode),
        Slot::of(local, false),
        Slot::of(network, false),
        Slot::of(network & device_there(l.network_flags), false),
        Slot::of(network & l.network_unicode, true),
        Slot::of(
            network & device_unicode_there(l.network_unicode, l.network_flags),
            true,
        ),
        Slot::of(info, false),
        Slot::of(info & local_unicode_there(l.long, l.flags), true),
        Slot::of(info & l.long, true),
        Slot::of(name_there(flags), unicode),
        Slot::of(relative_there(flags), unicode),
        Slot::of(workdir_there(flags), unicode),
        Slot::of(arguments_there(flags), unicode),
        Slot::of(icon_there(flags), unicode),
        Slot::of(true, false),
        Slot::of(info, false),
    ]
}

// Where VolumeID's label can start: behind the offset fields.
pub fn label_least(unicode: bool) -> u32
    ensures { result ≡ label_least unicode }
{
    if unicode { 0x14 } else { 0x10 }
}

// Where the network link's head ends.
pub fn network_head(unicode: bool) -> u32
    ensures { result ≡ network_head unicode }
{
    if unicode { 0x1C } else { 0x14 }
}

// What is absent counts as 0. One test, which other crates make too.
pub fn number_if(there: bool, n: u32) -> u32
    ensures { result ≡ cond there n 0 }
{
    if there { n } else { 0 }
}

// ---- numbers and labels: of numbers, a call of the library each, for a definition of the rules

pub fn one_or_0(b: bool) -> u8
    ensures { result ≡ one_or_0 b }
{
    u8::from(b)
}

// A number's 32 bits as a signed number.
#[tactic(auto, unfolding(crate::specs::Header::signed))]
pub fn signed(x: u32) -> i32
    ensures { result ≡ signed x }
{
    x.cast_signed()
}

// The 32 bits of a signed number.
#[tactic(auto, unfolding(crate::specs::Writing::bits))]
pub fn bits_of(n: i32) -> u32
    ensures { result ≡ bits n }
{
    n.cast_unsigned()
}

impl Label {
    // Of that kind, at that place.
    pub fn of(unicode: bool, place: Place) -> Self
        ensures { result ≡ label_of unicode place }
    {
        if unicode {
            Label::Unicode(place)
        } else {
            Label::Byte(place)
        }
    }

    pub fn is_unicode(self) -> bool
        ensures { result ≡ label_kind self }
    {
        matches!(self, Label::Unicode(_))
    }

    pub fn place(self) -> Place
        ensures { result ≡ label_place self }
    {
        match self {
            Label::Byte(place) | Label::Unicode(place) => place,
        }
    }
}
