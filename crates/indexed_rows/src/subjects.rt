ghost use Rattle.std.specs.Prelude.{◌≡◌, ◌++◌, ◌∷◌, [], ℕ, Bool, true, false, not, filter, length, ◌==◌, List as Items, if◌then◌else◌, OnOk};
ghost use Rattle.std.specs.Str.{bytes_eq};
ghost use Rattle.stream_fold.specs.Publishing.{is_value};
ghost use Rattle.stream_fold.specs.RowLists.{Rises};
ghost use Rattle.indexed_rows.specs.Indexes.{listed, has_place, first_of_list, last_of_list, ready_in, IsReady};

use crate::by_number::ByNumber;
use nats_text::NoMemory;
use std::alloc::Global;
use std::collections::BTreeMap;

/// The numbers of each subject's messages, by the bytes of the subject.
pub type Subjects = BTreeMap<Vec<u8>, ByNumber<()>>;

/// The least number of a subject.
pub fn first_listed(subjects: &Subjects, subject: &[u8]) -> Option<u64>
    ensures { result ≡ first_of_list (listed subject.now subjects.now) }
{
    subjects.get(subject)?.first()
}

/// The greatest number of a subject.
pub fn last_listed(subjects: &Subjects, subject: &[u8]) -> Option<u64>
    ensures { result ≡ last_of_list (listed subject.now subjects.now) }
{
    subjects.get(subject)?.last()
}

/// How many numbers a subject has.
pub fn count_listed(subjects: &Subjects, subject: &[u8]) -> usize
    ensures { result ≡ length (listed subject.now subjects.now) }
{
    match subjects.get(subject) {
        Some(numbers) => numbers.len(),
        None => 0,
    }
}

/// Adds a number above all others of the subject.
pub fn list_number(subjects: &mut Subjects, subject: &[u8], number: u64)
    requires place { has_place subject.now subjects.old ≡ true }
    requires above { Rises 0 (listed subject.now subjects.old ++ number ∷ []) }
    ensures { (other : Items ℕ) → listed other subjects.new ≡ (if bytes_eq subject.now other then listed other subjects.old ++ number ∷ [] else listed other subjects.old) }
{
    if let Some(numbers) = subjects.get_mut(subject) {
        numbers.push(number, ());
    }
}

/// Takes a number of the subject away, and the subject itself where it has no other number, and isn't
/// the one that is ready.
pub fn unlist_number(subjects: &mut Subjects, subject: &[u8], number: u64, coming: &Option<Vec<u8>>)
    ensures listed { (other : Items ℕ) → listed other subjects.new ≡ (if bytes_eq subject.now other then filter (λ n. not (n == number)) (listed other subjects.old) else listed other subjects.old) }
    ensures ready { (room : Bool) → IsReady (ready_in coming.now) room subjects.old → IsReady (ready_in coming.now) room subjects.new }
{
    take_number(subjects, subject, number);
    if !is_ready(coming, subject) {
        drop_if_empty(subjects, subject);
    }
}

fn take_number(subjects: &mut Subjects, subject: &[u8], number: u64)
    ensures listed { (other : Items ℕ) → listed other subjects.new ≡ (if bytes_eq subject.now other then filter (λ n. not (n == number)) (listed other subjects.old) else listed other subjects.old) }
    ensures places { (other : Items ℕ) → has_place other subjects.old ≡ true → has_place other subjects.new ≡ true }
{
    if let Some(numbers) = subjects.get_mut(subject) {
        numbers.remove(number);
    }
}

/// Whether the subject is the one that is ready.
fn is_ready(coming: &Option<Vec<u8>>, subject: &[u8]) -> bool
    ensures { result ≡ is_value subject.now (ready_in coming.now) }
{
    match coming {
        Some(coming) => coming.as_slice() == subject,
        None => false,
    }
}

/// Lets a subject without numbers go.
fn drop_if_empty(subjects: &mut Subjects, subject: &[u8])
    ensures listed { (other : Items ℕ) → listed other subjects.new ≡ listed other subjects.old }
    ensures places { (other : Items ℕ) → bytes_eq subject.now other ≡ false → has_place other subjects.old ≡ true → has_place other subjects.new ≡ true }
{
    if count_listed(subjects, subject) == 0 {
        subjects.remove(subject);
    }
}

/// Lets the subject go that was ready, where it has no numbers, and isn't this one.
pub fn drop_unused(subjects: &mut Subjects, coming: &Option<Vec<u8>>, subject: &[u8])
    ensures listed { (other : Items ℕ) → listed other subjects.new ≡ listed other subjects.old }
    ensures place { has_place subject.now subjects.old ≡ true → has_place subject.now subjects.new ≡ true }
{
    if let Some(earlier) = coming {
        drop_other(subjects, earlier.as_slice(), subject);
    }
}

fn drop_other(subjects: &mut Subjects, earlier: &[u8], subject: &[u8])
    ensures listed { (other : Items ℕ) → listed other subjects.new ≡ listed other subjects.old }
    ensures place { has_place subject.now subjects.old ≡ true → has_place subject.now subjects.new ≡ true }
{
    if earlier != subject {
        drop_if_empty(subjects, earlier);
    }
}

/// Makes room for one more number of the subject. Without memory all places stay.
pub fn reserve_number(
    alloc: Global,
    subjects: &mut Subjects,
    subject: &[u8],
) -> Result<(), NoMemory>
    ensures listed { (other : Items ℕ) → listed other subjects.new ≡ listed other subjects.old }
    ensures places { (other : Items ℕ) → has_place other subjects.old ≡ true → has_place other subjects.new ≡ true }
    ensures ok { OnOk result (has_place subject.now subjects.new ≡ true) }
{
    match subjects.get_mut(subject) {
        Some(numbers) => numbers.reserve(),
        None => add_subject(alloc, subjects, subject),
    }
}

fn add_subject(alloc: Global, subjects: &mut Subjects, subject: &[u8]) -> Result<(), NoMemory>
    requires { listed subject.now subjects.old ≡ [] }
    ensures listed { (other : Items ℕ) → listed other subjects.new ≡ listed other subjects.old }
    ensures places { (other : Items ℕ) → has_place other subjects.old ≡ true → has_place other subjects.new ≡ true }
    ensures ok { OnOk result (has_place subject.now subjects.new ≡ true) }
{
    let key = Vec::from_slice(alloc, subject)?;
    subjects.insert(key, ByNumber::new(alloc))?;
    Ok(())
}
