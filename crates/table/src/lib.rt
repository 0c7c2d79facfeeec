// The table of rights: which class of accounts may place at which kind of pixel. The lab's own table is loaded from a
// file into bytes that the caller keeps and hands in; where no load would accept these, the old table counts.
#![tactic(auto)]

ghost use Rattle.std.specs.Prelude.{◌≡◌, IfOk, drop};
ghost use Rattle.refusal.specs.Checks.{Gives};
ghost use Rattle.refusal.specs.Refused.{said};
ghost use Rattle.table.specs.Table.{class_of, row_of, column_of, pixel_kind, columns, says, may_place};
ghost use Rattle.table.specs.Load.{table_length, bits_only, has_every, sound};
ghost use Rattle.table.specs.Load.{table_check, table_of, load_check, load_of};

use refusal::{Checked, Refusal};

// The bytes of a table, three rows by five columns.
const LENGTH: usize = 15;

const COLUMNS: usize = 5;

// A file's first byte.
const COUNT: u8 = 15;

const YES: u8 = 1;

// Accounts up to LAST_STAFF are staff, from there up to LAST_STUDENT students, the others guests.
const LAST_STAFF: u8 = 7;

const LAST_STUDENT: u8 = 47;

// The old table, document 01's: it counts where the one handed in cannot be loaded.
const OLD: [[bool; 5]; 3] = [
    [true, true, true, true, false],
    [true, true, false, false, false],
    [true, false, false, false, false],
];

// The rows.
#[derive(Clone, Copy, Debug, PartialEq, Eq)]
enum Class {
    Staff,
    Student,
    Guest,
}

impl Class {
    // The class of an account.
    fn of(account: u8) -> Class
        ensures { result ≡ class_of account }
    {
        if account <= LAST_STAFF {
            return Class::Staff;
        }
        if account <= LAST_STUDENT {
            return Class::Student;
        }
        Class::Guest
    }
}

// The columns: the asking account's own pixel, nobody's, another guest's, another student's, another staff member's.
#[derive(Clone, Copy, Debug, PartialEq, Eq)]
enum Pixel {
    Own,
    Nobodys,
    Guests,
    Students,
    Staffs,
}

impl Pixel {
    const ALL: [Pixel; COLUMNS] = [
        Pixel::Own,
        Pixel::Nobodys,
        Pixel::Guests,
        Pixel::Students,
        Pixel::Staffs,
    ];

    // What a pixel of the account `holder` is for the asking account.
    fn of(asking: u8, holder: u8) -> Pixel
        ensures { column_of result ≡ pixel_kind asking holder }
    {
        if asking == holder {
            return Pixel::Own;
        }
        if holder == 0 {
            return Pixel::Nobodys;
        }
        match Class::of(holder) {
            Class::Guest => Pixel::Guests,
            Class::Student => Pixel::Students,
            Class::Staff => Pixel::Staffs,
        }
    }
}

// The bytes of a table, row after row.
#[derive(Clone, Copy, Debug)]
struct Table<'a> {
    bytes: &'a [u8; LENGTH],
}

impl Table<'_> {
    // What the table says in a row and a column.
    fn says(self, class: Class, pixel: Pixel) -> bool
        ensures { result ≡ says self.entry.bytes.now (row_of class) (column_of pixel) }
    {
        self.bytes[class as usize * COLUMNS + pixel as usize] == YES
    }

    // Whether a row has every yes of another, column by column.
    fn has_every(self, class: Class, other: Class) -> bool
        ensures { result ≡ has_every self.entry.bytes.now (row_of class) (row_of other) columns }
    {
        for pixel in Pixel::ALL {
            if self.says(other, pixel) && !self.says(class, pixel) {
                return false;
            }
        }
        true
    }

    // Whether no byte is above 1.
    fn bits_only(self) -> bool
        ensures { result ≡ bits_only self.entry.bytes.now }
    {
        let bytes = self.bytes;
        bytes.iter().all(|byte| *byte <= YES)
    }

    // Whether each row says yes to its own pixels, and has every yes of the row below it.
    fn is_sound(self) -> bool
        ensures { result ≡ sound self.entry.bytes.now }
    {
        self.says(Class::Staff, Pixel::Own)
            && self.says(Class::Student, Pixel::Own)
            && self.says(Class::Guest, Pixel::Own)
            && self.has_every(Class::Student, Class::Guest)
            && self.has_every(Class::Staff, Class::Student)
    }
}

// The table in bytes: 55 for another length or a byte above 1, then 56.
fn checked(bytes: &[u8]) -> Result<Table<'_>, Refusal>
    ensures number { said result ≡ table_check bytes.now }
    ensures table { IfOk result (λ t. t.bytes.now ≡ bytes.now) }
{
    let Some(bytes) = bytes.as_array::<LENGTH>() else {
        return Err(Refusal::TableMalformed);
    };
    let table = Table { bytes };
    if !table.bits_only() {
        return Err(Refusal::TableMalformed);
    }
    if !table.is_sound() {
        return Err(Refusal::TableUnsound);
    }
    Ok(table)
}

// The table in a file, behind its count, for a load into `lent` bytes.
fn loadable(file: &[u8], lent: usize) -> Result<Table<'_>, Refusal>
    ensures number { said result ≡ load_check file.now lent }
    ensures table { IfOk result (λ t. (t.bytes.now ≡ drop 1 file.now) × (lent ≡ table_length)) }
{
    let Some((count, bytes)) = file.split_first() else {
        return Err(Refusal::TableMalformed);
    };
    if *count != COUNT {
        return Err(Refusal::TableMalformed);
    }
    if lent != LENGTH {
        return Err(Refusal::TableMalformed);
    }
    checked(bytes)
}

// The offered call: loads the table of a file into the table in force. Refused, that is kept as it was.
pub fn load(file: &[u8], table: &mut [u8]) -> Checked
    ensures { Gives (said result) table.new (load_of file.now table.old) }
{
    let Table { bytes } = loadable(file, table.len())?;
    table.copy_from_slice(bytes);
    Ok(())
}

// The answer of the table that counts, where `table` is handed in: may the asking account place at a pixel of the
// account `holder`?
pub fn may_place(table: &[u8], asking: u8, holder: u8) -> bool
    ensures { result ≡ may_place (table_of table.now) asking holder }
{
    let class = Class::of(asking);
    let pixel = Pixel::of(asking, holder);
    match checked(table) {
        Ok(loaded) => loaded.says(class, pixel),
        Err(_) => OLD[class as usize][pixel as usize],
    }
}
