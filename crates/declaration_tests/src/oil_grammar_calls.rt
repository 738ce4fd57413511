use oil_grammar::*;
use std::alloc::Global;

/// Whether the text's fault stands in this line and has this kind.
fn refuses(alloc: Global, text: &str, place: u64, wanted: OilKind) -> bool {
    match read_oil(alloc, text.as_bytes()) {
        Err(OilFault::At { line, kind }) => line == place && kind == wanted,
        _ => false,
    }
}

/// More texts are cases of the built program.
#[test]
#[rattlefmt::skip]
fn faults_stand_at_the_first_place_that_no_text_has(rt: HostRuntime) {
    assert!(rt; refuses(rt.alloc(), "OIL_VERSION=\"2.5\";CPU A{#include};", 1, OilKind::Include));
    assert!(rt; refuses(rt.alloc(), "OIL_VERSION = \"2.5\";\n/* CPU", 2, OilKind::Comment));
    assert!(rt; refuses(rt.alloc(), "OIL_VERSION = \"2.5\";\nCPU C {};\n;", 3, OilKind::Expected));
    assert!(rt; refuses(rt.alloc(), "OIL_VERSION = \"2.5;", 1, OilKind::Text));
    assert!(rt; refuses(rt.alloc(), "OIL_VERSION = \"2\"; CPU C { A B { N = 1.5; }; };", 1, OilKind::Number));
    assert!(rt; refuses(rt.alloc(), "OIL_VERSION = \"2\"; CPU C { ? };", 1, OilKind::Byte));
}

fn is_ten(value: &Value) -> bool {
    matches!(
        value,
        Value::Number {
            negative: false,
            size: 10
        }
    )
}

fn is_task(object: &Object) -> bool {
    object.name.as_slice() == b"T".as_slice()
        && object.attributes.len() == 3
        && is_ten(&object.attributes.get(0).value)
        && object.attributes.get(2).level == 2
}

fn is_vendor_tree(tree: &Tree) -> bool {
    tree.version.as_slice() == b"2.5".as_slice()
        && tree.cpu.as_slice() == b"C".as_slice()
        && tree.objects.len() == 1
        && is_task(tree.objects.get(0))
}

const VENDOR: &str =
    "OIL_VERSION = \"2.5\" : \"v\";\r\nIMPLEMENTATION X { { \"}\" /* } */ } // }\n} : \"i\";\nCPU C {\n\tTASK T { PRIORITY = 0x0A : \"p\"; AUTOSTART = TRUE { APPMODE = M; } : \"a\"; };\n};";

fn reads_vendor_text(alloc: Global) -> bool {
    match read_oil(alloc, VENDOR.as_bytes()) {
        Ok(tree) => is_vendor_tree(&tree),
        Err(_) => false,
    }
}

#[test]
fn a_vendor_text_is_read(rt: HostRuntime) {
    assert!(rt; reads_vendor_text(rt.alloc()));
}

const DENSE: &str =
    "OIL_VERSION=\"2.5\":\"v\";IMPLEMENTATION X{{}};CPU C{TASK T{PRIORITY=10:\"p\";AUTOSTART=TRUE{APPMODE=M{NAME=\"a ; b\";};LIMIT=AUTO;};}:\"d\";COUNTER K;RESOURCE R{P=FALSE{};};};";

const LAYOUT: &str = "OIL_VERSION = \"2.5\";
CPU C {
  TASK T {
    PRIORITY = 10;
    AUTOSTART = TRUE {
      APPMODE = M {
        NAME = \"a ; b\";
      };
      LIMIT = AUTO;
    };
  };
  COUNTER K {
  };
  RESOURCE R {
    P = FALSE {
    };
  };
};
";

fn has_layout(alloc: Global, tree: &Tree) -> bool {
    match write_oil(alloc, tree) {
        Ok(layout) => layout.as_slice() == LAYOUT.as_bytes(),
        Err(_) => false,
    }
}

fn lays_out(alloc: Global) -> bool {
    match read_oil(alloc, DENSE.as_bytes()) {
        Ok(tree) => has_layout(alloc, &tree),
        Err(_) => false,
    }
}

#[test]
fn each_level_is_two_spaces_deep_and_each_object_has_braces(rt: HostRuntime) {
    assert!(rt; lays_out(rt.alloc()));
}
