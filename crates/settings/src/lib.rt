// A row's settings as text: its layout numbers, a record a line, the newest last. The three calls take any input and test everything themselves.
#![tactic(auto)]

ghost use Rattle.std.specs.Prelude.{◌≡◌, true, eqb};
ghost use Rattle.lists.specs.Pick.{pick};
ghost use Rattle.settings.specs.Settings.{edition_of, setting_layout, has_form, is_setting};
ghost use Rattle.settings.specs.Calls.{Adds, settings_of};
ghost use Rattle.settings.specs.Scan.{refused_with, Scanned};
ghost use Rattle.settings.specs.Version.{number_of, NamesVersion, Accepts};
ghost use Rattle.settings.specs.Answers.{added_by, settings_by};

use lists::Refusal;
use numbers::Layout;

// ---- a line

// How many digits the version has, N, K, P, U, T, the cookie, and the edition.
const WIDTHS: [usize; 8] = [2, 2, 2, 2, 4, 6, 16, 2];

// The versions of a record. The edition is a field of the second's line alone.
#[derive(Clone, Copy)]
enum Version {
    First,
    Second,
}

impl TryFrom<u64> for Version {
    type Error = Refusal;

    ghost try_from_gives = { NamesVersion };

    fn try_from(number: u64) -> Result<Self, Refusal> {
        match number {
            1 => Ok(Version::First),
            2 => Ok(Version::Second),
            _ => Err(Refusal::Layout),
        }
    }
}

impl Version {
    // The newest edition that it knows.
    fn newest_edition(self) -> u64
        ensures { result ≡ number_of self }
    {
        match self {
            Version::First => 1,
            Version::Second => 2,
        }
    }

    fn field_count(self) -> usize
        ensures { result ≡ pick (eqb (number_of self) 2) 8 7 }
    {
        match self {
            Version::First => 7,
            Version::Second => 8,
        }
    }

    fn line_length(self) -> usize
        ensures { result ≡ pick (eqb (number_of self) 2) 44 41 }
    {
        match self {
            Version::First => 41,
            Version::Second => 44,
        }
    }
}

// Whether the line has the fields of a version. One of less than three characters has not even the version's.
fn has_form(line: &[u8]) -> bool
    ensures { result ≡ has_form line.now }
{
    if line.len() < 3 {
        return false;
    }
    match Version::try_from(hex_text::number_at(line, 0, 2)) {
        Ok(version) => trace::has_fields(line, 0, WIDTHS, version.field_count()),
        Err(_) => false,
    }
}

// The edition that a line tells; version 1 is edition 1.
fn edition_of(line: &[u8]) -> u64
    requires { has_form line.now ≡ true }
    ensures { result ≡ edition_of line.now }
{
    match hex_text::number_at(line, 0, 2) {
        2 => hex_text::number_at(line, 41, 2),
        _ => 1,
    }
}

// The layout that a line tells.
fn layout_of(line: &[u8]) -> Layout
    requires { has_form line.now ≡ true }
    ensures { result ≡ setting_layout line.now }
{
    Layout {
        edition: edition_of(line),
        ..trace::layout_at(line, 3)
    }
}

// Whether the line is well-formed, and its numbers are within the bounds.
fn is_setting(line: &[u8]) -> bool
    ensures { result ≡ is_setting line.now }
{
    has_form(line) && numbers::check(layout_of(line)).is_ok()
}

// ---- adding a record

// How C is answered. Refused, `used` is as it was given.
#[repr(C)]
#[derive(Clone, Copy)]
pub struct Added {
    pub refusal: u64,
    pub used: usize,
}

impl Added {
    // The answer of an add to a text of this length.
    pub fn new(used: usize, answer: Result<usize, Refusal>) -> Self
        ensures { result ≡ added_by used answer }
    {
        Added {
            refusal: lists::answer_number(answer),
            used: answer.unwrap_or(used),
        }
    }
}

// The version in which the layout is added.
fn check_adding(version: u64, y: Layout, room: usize, used: usize) -> Result<Version, Refusal>
    ensures { Accepts version y room used result }
{
    numbers::check(y)?;
    let known = Version::try_from(version)?;
    if version < y.edition {
        return Err(Refusal::Layout);
    }
    if room < used {
        return Err(Refusal::BufferLength);
    }
    if room - used < known.line_length() {
        return Err(Refusal::Full);
    }
    Ok(known)
}

// Appends the line of a layout after the used part of the buffer, and answers how long the text is then.
pub fn add(version: u64, y: Layout, buffer: &mut [u8], used: usize) -> Result<usize, Refusal>
    ensures { Adds version y buffer.old used (added_by used result) buffer.new }
{
    let known = check_adding(version, y, buffer.len(), used)?;
    let numbers = [version, y.n, y.k, y.p, y.u, y.t, y.cookie, y.edition];
    let end = trace::write_fields(numbers, WIDTHS, known.field_count(), buffer, used);
    Ok(end)
}

// ---- reading the newest

// Why a text tells no layout: it is refused, or it has a malformed line, of which the first is told, counted from 1.
#[derive(Clone, Copy, PartialEq, Eq, Debug)]
pub enum Unread {
    Refused(Refusal),
    Malformed(u64),
}

// How C is answered. Where the refusal is 12, `line` is the first malformed line, counted from 1; else 0. Refused, the layout is zeros.
#[repr(C)]
#[derive(Clone, Copy)]
pub struct Settings {
    pub refusal: u64,
    pub line: u64,
    pub layout: Layout,
}

fn refused(refusal: u64, line: u64) -> Settings
    ensures { result ≡ refused_with refusal line }
{
    Settings {
        refusal,
        line,
        layout: numbers::no_layout(),
    }
}

impl From<Result<Layout, Unread>> for Settings {
    ghost from_gives = { λ answer settings. settings ≡ settings_by answer };

    fn from(answer: Result<Layout, Unread>) -> Self {
        match answer {
            Ok(layout) => Settings {
                refusal: 0,
                line: 0,
                layout,
            },
            Err(Unread::Refused(refusal)) => refused(refusal.into(), 0),
            Err(Unread::Malformed(line)) => refused(12, line),
        }
    }
}

// Where the newest line of a text begins; or the first malformed line, counted from 1.
fn scan(text: &[u8]) -> Result<usize, u64>
    ensures { Scanned text.now result }
{
    let mut line = 1;
    let mut newest = 0;
    let mut from = 0;
    while from < text.len() {
        let end = line_cursor::line_end(text, from);
        if !is_setting(&text[from..end]) {
            return Err(line);
        }
        line += 1;
        newest = from;
        from = end;
    }
    Ok(newest)
}

// What a reader shows that was written for a version, and so knows the editions up to its newest.
fn read(reader: Version, buffer: &[u8], used: usize) -> Result<Layout, Unread>
    ensures { settings_by result ≡ settings_of (number_of reader) buffer.now used }
{
    if buffer.len() < used {
        return Err(Unread::Refused(Refusal::BufferLength));
    }
    if used == 0 {
        return Err(Unread::Refused(Refusal::NotThere));
    }
    let newest = match scan(&buffer[..used]) {
        Ok(newest) => newest,
        Err(line) => return Err(Unread::Malformed(line)),
    };
    let layout = layout_of(&buffer[newest..used]);
    if reader.newest_edition() < layout.edition {
        return Err(Unread::Refused(Refusal::UnknownEdition));
    }
    Ok(layout)
}

// The newest record.
pub fn newest(buffer: &[u8], used: usize) -> Result<Layout, Unread>
    ensures { settings_by result ≡ settings_of 2 buffer.now used }
{
    read(Version::Second, buffer, used)
}

// The newest record, by the reader of rows that know version 1 alone.
pub fn newest_old(buffer: &[u8], used: usize) -> Result<Layout, Unread>
    ensures { settings_by result ≡ settings_of 1 buffer.now used }
{
    read(Version::First, buffer, used)
}
