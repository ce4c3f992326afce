//! Texts, bytes, lists and names, each call once where there is memory; and printed texts.
use base_io::{
    Bytes, Copied, Failed, NameIndex, Names, NoMemory, Numbers, ReadAllFault, Text, WriteFault,
};
use std::alloc::Global;
use std::test::Fail;

fn is_copy(alloc: Global, text: &Text, given: &str) -> bool {
    match text.copied(alloc) {
        Ok(copy) => copy.as_str() == given,
        Err(_) => false,
    }
}

fn is_shared(alloc: Global, text: Text, given: &str) -> bool {
    match text.shared() {
        Ok(shared) => shared.as_str() == given && is_copy(alloc, &shared, given),
        Err(_) => false,
    }
}

fn is_printed(alloc: Global, text: &Text, shown: &str) -> bool {
    match format!(in alloc; "{text} {text:?}") {
        Ok(printed) => printed.as_str() == shown,
        Err(_) => false,
    }
}

/// A text is copied and printed as it is, and copied when it is shared, also where it was made of a string.
fn is_held(alloc: Global, given: &str, shown: &str) -> Result<bool, NoMemory> {
    let text = Text::from_str(alloc, given)?;
    let made = Text::from(String::from_str(alloc, given)?);
    let owned = is_copy(alloc, &text, given) && is_printed(alloc, &text, shown);
    Ok(is_shared(alloc, text, given) && is_shared(alloc, made, given) && owned)
}

/// Texts, and how they are printed, also for a reader.
static TEXTS: [(&str, &str); 3] = [
    ("", " \"\""),
    ("käse", "käse \"käse\""),
    (
        "käse und brot, zweimal",
        "käse und brot, zweimal \"käse und brot, zweimal\"",
    ),
];

#[test]
fn texts_are_copied_and_printed(rt: HostRuntime) -> Result<(), Fail> {
    for (given, shown) in &TEXTS {
        assert!(rt; is_held(rt.alloc(), given, shown)?);
    }
    Ok(())
}

fn gather(bytes: &mut Bytes, part: &[u8], last: &[u8]) -> Result<(), NoMemory> {
    bytes.append(part)?;
    bytes.push(b'-')?;
    bytes.reserve(last.len())?;
    bytes.append_reserved(last);
    Ok(())
}

fn is_gathered(alloc: Global, whole: &[u8]) -> Result<bool, NoMemory> {
    let mut bytes = Bytes::from_slice(alloc, b"ab")?;
    gather(&mut bytes, b"cd", b"ef")?;
    Ok(bytes.as_slice() == whole)
}

fn list(numbers: &mut Numbers, first: u64, second: u64) -> Result<(), NoMemory> {
    numbers.push(first)?;
    numbers.reserve(1)?;
    numbers.push_reserved(second);
    Ok(())
}

fn are_listed(alloc: Global, numbers: &[u64]) -> Result<bool, NoMemory> {
    let mut listed = Numbers::new(alloc);
    list(&mut listed, 3, 1)?;
    Ok(listed.as_slice() == numbers)
}

fn is_alone(names: &[Text], name: &str) -> bool {
    names.len() == 1 && names[0].as_str() == name
}

fn are_copied(alloc: Global, names: &Names, name: &str) -> bool {
    match names.copy(alloc) {
        Ok(copy) => is_alone(copy.as_slice(), name),
        Err(_) => false,
    }
}

fn is_name_copied(alloc: Global, name: &str) -> Result<bool, NoMemory> {
    let mut names = Names::new(alloc);
    names.push(Text::from_str(alloc, name)?)?;
    Ok(are_copied(alloc, &names, name))
}

fn add(alloc: Global, index: &mut NameIndex, name: &str) -> Result<(), NoMemory> {
    if index.contains(name) {
        return Ok(());
    }
    index.add(alloc, name)
}

/// The places of two names, of which the first was added behind another one.
fn positions(alloc: Global, name: &str, absent: &str) -> Result<[Option<usize>; 2], NoMemory> {
    let mut index = NameIndex::new(alloc);
    add(alloc, &mut index, "phone")?;
    add(alloc, &mut index, name)?;
    Ok([index.find(name), index.find(absent)])
}

#[test]
fn bytes_lists_and_names_are_gathered(rt: HostRuntime) {
    let alloc = rt.alloc();
    assert!(rt;
        is_gathered(alloc, b"abcd-ef") == Ok(true)
            && are_listed(alloc, &[3, 1]) == Ok(true)
            && is_name_copied(alloc, "phone") == Ok(true)
            && positions(alloc, "desk", "watch") == Ok([Some(1), None])
    );
}

fn is_shown(alloc: Global, fault: ReadAllFault, shown: &str) -> bool {
    match fault.to_string(alloc) {
        Ok(text) => text.as_str() == shown,
        Err(_) => false,
    }
}

/// Faults and their printed texts.
static PRINTED: [(ReadAllFault, &str); 3] = [
    (ReadAllFault::ReadFault, "a read failed"),
    (ReadAllFault::TooLong, "more than 67,108,864 bytes"),
    (ReadAllFault::NoMemory, "out of memory"),
];

fn are_others_shown(alloc: Global, shown: &str) -> bool {
    match format!(in alloc; "{}, {}, {}", NoMemory, Failed, WriteFault) {
        Ok(text) => text.as_str() == shown,
        Err(_) => false,
    }
}

#[test]
fn faults_say_what_they_are(rt: HostRuntime) {
    for (fault, shown) in &PRINTED {
        assert!(rt; is_shown(rt.alloc(), *fault, shown));
    }
    assert!(rt; are_others_shown(rt.alloc(), "out of memory, failed, a write failed"));
}
