//! The fields of one JSON object.
use json_fields::*;
use serde_json::Value;
use std::alloc::Global;

const TEXT: &[u8] =
    b"{\"at\":16,\"digits\":[\"604462909807314587353088\",\"07\"],\"from\":\"0x1fC\",\"one\":1.0}";

fn is_whole(value: &Value, key: &str, wanted: Option<u64>) -> bool {
    match value.get(key) {
        Some(number) => whole_in(number, 0, 16) == wanted,
        None => false,
    }
}

fn is_address(value: &Value, key: &str, wanted: u32) -> bool {
    match value.get(key) {
        Some(address) => address_in(address) == Some(wanted),
        None => false,
    }
}

fn are_digits(value: &Value, key: &str) -> bool {
    match list_at(value, key) {
        Some([large, padded]) => {
            digits_in(large, 1 << 80) == Some(1 << 79) && digits_in(padded, 1 << 80) == None
        }
        _ => false,
    }
}

fn has_fields(value: &Value) -> bool {
    has_exactly(value, &["digits", "from", "one", "at"])
        && !has_keys(value, &["at", "to"], &["one", "from", "digits"])
        && is_whole(value, "at", Some(16))
        && is_whole(value, "one", None)
        && is_address(value, "from", 0x1fc)
        && are_digits(value, "digits")
}

fn reads_fields(alloc: Global) -> bool {
    match Value::from_slice(alloc, TEXT) {
        Ok(value) => has_fields(&value),
        Err(_) => false,
    }
}

#[test]
fn fields_of_one_object(rt: HostRuntime) {
    assert!(rt; reads_fields(rt.alloc()));
}
