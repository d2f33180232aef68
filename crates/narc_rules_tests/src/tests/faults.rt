//! Faults by example.
use narc_format::{Fault, Field};
use std::test::Fail;

#[test]
fn a_fault_of_a_part_gets_its_place_and_its_field_once(rt: HostRuntime) {
    let fault = Fault::unnamed();
    assert!(rt; fault.field == Field::unnamed());
    let options = Field::of(18);
    let checksum = Field::of(19);
    let named = fault.later_by(16).named(options);
    assert!(rt; named.field.number() == 18);
    assert!(rt; named.at == 16);
    assert!(rt;
        named.named(checksum) == named,
        "a named fault keeps its field"
    );
}

#[test]
fn a_fault_is_printed_with_its_field_and_its_place(rt: HostRuntime) -> Result<(), Fail> {
    let operation = Field::of(8);
    let fault = Fault::unnamed().later_by(48).named(operation);
    assert!(rt; format!(in rt.alloc(); "{fault}")?.as_str() == "field 8 at bit 48");
    Ok(())
}
