//! Names, and catalogues of objects under them.

use aea_catalog::{Catalog, Extent, NameText, ObjectRef, check_name};
use std::alloc::{AllocError, Global};
use std::test::Fail;

// Whether a name of 255 bytes and one of a letter of two bytes are names, and none, 256 bytes and half a letter are not.
fn limits_hold() -> bool {
    let long = [b'a'; 256];
    check_name(&long[..255])
        && !check_name(&long)
        && !check_name(b"")
        && check_name("é".as_bytes())
        && !check_name(&[0xc3])
}

#[test]
fn names_are_plain_text_of_1_to_255_bytes(rt: HostRuntime) -> Result<(), Fail> {
    assert!(rt; limits_hold());
    for (byte, want) in [
        (31, false),
        (32, true),
        (126, true),
        (127, false),
        (0xff, false),
    ] {
        assert!(rt; check_name(&[b'a', byte]) == want, "byte {byte}");
    }
    Ok(())
}

// Whether a text is empty first, and then has the bytes that came.
fn has_bytes(alloc: Global) -> Result<bool, AllocError> {
    let mut text = NameText::new(alloc);
    let is_empty = text.is_empty();
    for &byte in b"boat" {
        text.push(byte)?;
    }
    Ok(
        is_empty
            && text.bytes() == b"boat".as_slice()
            && (text.len(), text.get(1), text.get(4)) == (4, Some(b'o'), None),
    )
}

#[test]
fn a_text_has_the_bytes_that_came(rt: HostRuntime) -> Result<(), Fail> {
    assert!(rt; has_bytes(rt.alloc())?);
    Ok(())
}

fn object(first: u32) -> ObjectRef {
    ObjectRef {
        first,
        count: 1,
        length: 7,
        digest: [3; 32],
    }
}

// Puts an object under a name that is new.
fn put(catalog: &mut Catalog, name: &[u8], first: u32) -> Result<(), Fail> {
    if !check_name(name) {
        return Err("no name".into());
    }
    if catalog.find(name).is_some() {
        return Err("no new name".into());
    }
    catalog.insert(name, object(first))?;
    Ok(())
}

// Whether each of three objects is found under its name, and no other one.
fn finds_three(catalog: &Catalog) -> bool {
    catalog.find(b"pine") == Some(object(1))
        && catalog.find(b"ash") == Some(object(2))
        && catalog.find(b"pin") == Some(object(3))
        && catalog.find(b"oak") == None
}

// Whether these three are listed by name, and no other one.
fn lists_three(catalog: &Catalog) -> bool {
    catalog.entry(0) == Some((&b"ash"[..], object(2)))
        && catalog.entry(1) == Some((&b"pin"[..], object(3)))
        && catalog.entry(2) == Some((&b"pine"[..], object(1)))
        && catalog.entry(3) == None
        && catalog.len() == 3
}

// Whether a catalogue is empty first, and then has the three objects that were put.
fn has_three(alloc: Global) -> Result<bool, Fail> {
    let mut catalog = Catalog::new(alloc);
    let is_empty = catalog.is_empty();
    put(&mut catalog, b"pine", 1)?;
    put(&mut catalog, b"ash", 2)?;
    put(&mut catalog, b"pin", 3)?;
    Ok(is_empty && finds_three(&catalog) && lists_three(&catalog))
}

#[test]
fn objects_are_found_and_listed_by_name(rt: HostRuntime) -> Result<(), Fail> {
    assert!(rt; has_three(rt.alloc())?);
    Ok(())
}

// Makes room for an object, and puts it there.
fn put_owned(alloc: Global, catalog: &mut Catalog) -> Result<(), Fail> {
    let name = Vec::from_slice(alloc, b"oak".as_slice())?;
    catalog.reserve()?;
    if check_name(&name) && catalog.find(&name).is_none() {
        catalog.insert_owned(name, object(9));
    }
    Ok(())
}

#[test]
fn an_object_is_put_where_there_is_room(rt: HostRuntime) -> Result<(), Fail> {
    let mut catalog = Catalog::new(rt.alloc());
    put_owned(rt.alloc(), &mut catalog)?;
    assert!(rt; catalog.find(b"oak") == Some(object(9)));
    Ok(())
}

// Puts an object of two parts under the name `elm`.
fn put_parts(catalog: &mut Catalog) -> Result<(), Fail> {
    let parts = [Extent { first: 2, count: 3 }, Extent { first: 9, count: 1 }];
    let whole = ObjectRef {
        first: 2,
        count: 4,
        length: 60,
        digest: [4; 32],
    };
    if catalog.find(b"elm").is_none() && check_name(b"elm") {
        catalog.insert_parts(b"elm", whole, &parts)?;
    }
    Ok(())
}

// Whether the catalogue has `oak` with one part, `elm` with its two, and no other one.
fn has_parts(catalog: &Catalog) -> bool {
    let whole = ObjectRef {
        first: 2,
        count: 4,
        length: 60,
        digest: [4; 32],
    };
    let second = Some(Extent { first: 9, count: 1 });
    let counts = (
        catalog.parts(b"oak"),
        catalog.parts(b"elm"),
        catalog.parts(b"ash"),
    );
    counts == (Some(1), Some(2), None)
        && catalog.part(b"oak", 0) == Some(Extent { first: 5, count: 1 })
        && (catalog.part(b"elm", 1), catalog.part(b"elm", 2)) == (second, None)
        && (catalog.find(b"elm"), catalog.part(b"ash", 0)) == (Some(whole), None)
}

#[test]
fn an_object_has_its_parts(rt: HostRuntime) -> Result<(), Fail> {
    let mut catalog = Catalog::new(rt.alloc());
    put(&mut catalog, b"oak", 5)?;
    put_parts(&mut catalog)?;
    assert!(rt; has_parts(&catalog));
    Ok(())
}

// The last decimal digit of the number.
fn digit(number: u32) -> u8 {
    b'0' + (number % 10) as u8
}

// The last five decimal digits of the number.
fn name_of(number: u32) -> [u8; 5] {
    [
        digit(number / 10_000),
        digit(number / 1000),
        digit(number / 100),
        digit(number / 10),
        digit(number),
    ]
}

// Puts 65,536 objects under numbers, the k-th under k times the factor less 1.
fn fill(catalog: &mut Catalog, factor: u32) -> Result<(), Fail> {
    for k in 0..65_536u32 {
        let number = k.wrapping_mul(factor).wrapping_sub(1) % 65_536;
        put(catalog, &name_of(number), number)?;
    }
    Ok(())
}

// Whether the catalogue has these objects in order.
fn is_in_order(catalog: &Catalog) -> bool {
    for k in 0..65_536u32 {
        let entry = catalog.entry(k as usize);
        if entry != Some((name_of(k).as_slice(), object(k))) {
            return false;
        }
    }
    catalog.len() == 65_536
}

// Whether a catalogue that was filled with this factor has its objects in order.
fn orders(alloc: Global, factor: u32) -> Result<bool, Fail> {
    let mut catalog = Catalog::new(alloc);
    fill(&mut catalog, factor)?;
    Ok(is_in_order(&catalog))
}

#[test]
fn many_objects_in_no_order(rt: HostRuntime) -> Result<(), Fail> {
    assert!(rt; orders(rt.alloc(), 40_503)?);
    Ok(())
}

#[test]
fn many_objects_in_falling_order(rt: HostRuntime) -> Result<(), Fail> {
    assert!(rt; orders(rt.alloc(), 65_535)?);
    Ok(())
}
