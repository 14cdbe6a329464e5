//! The calls that take no memory, one after the other between two marks, and what they give, as numbers.

use crate::answer::Answer;
use crate::marks::Marks;
use std::alloc::{AllocError, Global};
use wit_component::{
    ComponentType, Error, FlatEncoder, Function, InstanceType, Interface, InterfaceEncoder,
    LendsMaps, OutputToString, Resolve, Sections, Stability, Steps, TypeOwner, ValtypeEncoder,
    WitPrinter, World, WorldItem, WorldKey, custom_name, extern_name, read_index, read_name,
    read_u32,
};

/// 1 in five bytes.
const NUMBER: &[u8] = &[0x81, 0x80, 0x80, 0x80, 0x00];

/// The index 64.
const INDEX: &[u8] = &[0xc0, 0x00];

/// The name `ab`, and a byte behind it.
const NAME: &[u8] = &[0x02, 0x61, 0x62, 0x07];

/// A custom section of the name `a` with a byte, and behind it a section that is cut.
const SECTIONS: &[u8] = &[0x00, 0x03, 0x01, 0x61, 0x09, 0x05, 0x02, 0x08];

// ---- bytes

// A number, an index, and the length of a name; behind each, where it ends.
fn of_numbers() -> Result<[u64; 6], Error> {
    let (number, number_end) = read_u32(NUMBER, 0)?;
    let (index, index_end) = read_index(INDEX, 0)?;
    let (name, name_end) = read_name(NAME, 0)?;
    Ok([
        u64::from(number),
        number_end as u64,
        u64::from(index),
        index_end as u64,
        name.len() as u64,
        name_end as u64,
    ])
}

fn offset_of(error: &Error) -> u64 {
    match error {
        Error::NoReading(_, offset) => *offset as u64,
        _ => 0,
    }
}

// The number of the first section, where its contents start, the lengths of its name and of what is behind it, and where the second is refused.
fn of_sections() -> Result<[u64; 5], Error> {
    let mut sections = Sections::new(SECTIONS, 0);
    let Some(section) = sections.next()? else {
        return Err(Error::Size);
    };
    let (name, data) = custom_name(section.contents)?;
    let refused = match sections.next() {
        Ok(_) => 0,
        Err(error) => offset_of(&error),
    };
    Ok([
        u64::from(section.id),
        section.start as u64,
        name.len() as u64,
        data.len() as u64,
        refused,
    ])
}

// ---- names

/// Lengths of names, and how many functions and items are of a kind.
#[derive(Clone, Copy)]
struct Counts {
    /// Of names without a resource.
    item_names: u64,
    /// Of names as they are declared.
    extern_names: u64,
    of_resources: u64,
    asynchronous: u64,
    shorthands: u64,
    implementing: u64,
    with_external_id: u64,
    ungated: u64,
}

impl Counts {
    fn numbers(self) -> [u64; 8] {
        [
            self.item_names,
            self.extern_names,
            self.of_resources,
            self.asynchronous,
            self.shorthands,
            self.implementing,
            self.with_external_id,
            self.ungated,
        ]
    }
}

fn count_if(count: &mut u64, holds: bool) {
    if holds {
        *count = count.wrapping_add(1);
    }
}

fn count_function(counts: &mut Counts, resolve: &Resolve, function: &Function) {
    let declared = extern_name(&function.name, None);
    let length = function.item_name().len() as u64;
    counts.item_names = counts.item_names.wrapping_add(length);
    counts.extern_names = counts.extern_names.wrapping_add(declared.name.len() as u64);
    count_if(&mut counts.of_resources, function.kind.resource().is_some());
    count_if(&mut counts.asynchronous, function.kind.is_async());
    count_if(
        &mut counts.shorthands,
        function.is_constructor_shorthand(resolve),
    );
}

// Whether the item is an interface that is there and has no gates.
fn is_ungated(resolve: &Resolve, item: &WorldItem) -> bool {
    let WorldItem::Interface { id, .. } = item else {
        return false;
    };
    if id.0 as usize >= resolve.interfaces.len() {
        return false;
    }
    item.stability(resolve) == &Stability::Unknown
}

fn count_item(counts: &mut Counts, resolve: &Resolve, key: &WorldKey, item: &WorldItem) {
    let implements = resolve.implements_interface(key, item).is_some();
    let has_id = resolve.external_id_value(key, item).is_some();
    count_if(&mut counts.implementing, implements);
    count_if(&mut counts.with_external_id, has_id);
    count_if(&mut counts.ungated, is_ungated(resolve, item));
}

fn count_functions(counts: &mut Counts, resolve: &Resolve, interface: &Interface) {
    for function in interface.functions.values() {
        count_function(counts, resolve, function);
    }
}

fn count_imports(counts: &mut Counts, resolve: &Resolve, world: &World) {
    for (key, item) in &world.imports {
        count_item(counts, resolve, key, item);
    }
}

fn count_interfaces(counts: &mut Counts, resolve: &Resolve) {
    for interface in &resolve.interfaces {
        count_functions(counts, resolve, interface);
    }
}

// Of all functions of interfaces, and of all imports of worlds.
fn of_names(resolve: &Resolve) -> [u64; 8] {
    let mut counts = Counts {
        item_names: 0,
        extern_names: 0,
        of_resources: 0,
        asynchronous: 0,
        shorthands: 0,
        implementing: 0,
        with_external_id: 0,
        ungated: 0,
    };
    count_interfaces(&mut counts, resolve);
    for world in &resolve.worlds {
        count_imports(&mut counts, resolve, world);
    }
    counts.numbers()
}

// ---- what is fresh

// The types of a component type and of an instance type, the slots of an encoder over one table, and how many encoders are of no interface.
fn of_encoders(alloc: Global, resolve: &Resolve) -> [u64; 4] {
    let component = ComponentType::new(alloc);
    let instance = InstanceType::new(alloc);
    let mut encoder = InterfaceEncoder::new(alloc, resolve);
    encoder.type_encoding_maps();
    let mut flat = FlatEncoder::new(alloc, resolve, TypeOwner::None);
    flat.type_encoding_maps();
    let mut of_none = 0;
    count_if(&mut of_none, encoder.interface().is_none());
    count_if(&mut of_none, flat.interface().is_none());
    [
        u64::from(component.type_count()),
        u64::from(instance.type_count()),
        u64::from(flat.slots()),
        of_none,
    ]
}

// The length of the text of a printer, and a number of steps.
fn of_printer(alloc: Global) -> [u64; 2] {
    let mut printer = WitPrinter::new(OutputToString::new(alloc));
    printer.emit_docs(false);
    let text = String::from(printer.output);
    [text.len() as u64, Steps::new().count]
}

// ---- all

/// What all of them give.
#[derive(Clone, Copy)]
struct Given {
    numbers: [u64; 6],
    sections: [u64; 5],
    names: [u64; 8],
    encoders: [u64; 4],
    printer: [u64; 2],
}

fn all(alloc: Global, resolve: &Resolve) -> Result<Given, Error> {
    Ok(Given {
        numbers: of_numbers()?,
        sections: of_sections()?,
        names: of_names(resolve),
        encoders: of_encoders(alloc, resolve),
        printer: of_printer(alloc),
    })
}

fn put_numbers(alloc: Global, numbers: &[u64], words: &mut String) -> Result<(), AllocError> {
    for number in numbers {
        words.push_str(&format!(in alloc; " {number}")?)?;
    }
    Ok(())
}

/// What the calls give that take no memory: of bytes of this page, of all names of a `Resolve`, and of what is fresh.
pub fn no_memory(alloc: Global, marks: Marks, resolve: &Resolve) -> Result<Answer, Answer> {
    marks.begin(alloc)?;
    let given = all(alloc, resolve);
    marks.end(alloc)?;
    let given = given?;
    let mut words = String::new(alloc);
    put_numbers(alloc, &given.numbers, &mut words)?;
    put_numbers(alloc, &given.sections, &mut words)?;
    put_numbers(alloc, &given.names, &mut words)?;
    put_numbers(alloc, &given.encoders, &mut words)?;
    put_numbers(alloc, &given.printer, &mut words)?;
    Ok(Answer::Words(words))
}
