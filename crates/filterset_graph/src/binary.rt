//! Test binaries: their kinds, their ids, and the names of their tests.
ghost use Rattle.std.specs.Prelude.{◌≡◌, IfOk, string_bytes};
ghost use Rattle.std.specs.{Cmp.Lexicographic.nat_list_eq_equiv, Str.bytes_eq};
ghost use Rattle.std.specs.Cmp as laws;
ghost use Rattle.filterset_graph.specs.Binaries.{written_id};

use std::alloc::{AllocError, Global};
use std::marker::Model;

/// The group of every test that is in no custom group.
pub const GLOBAL_TEST_GROUP: &str = "@global";

/// The text of a kind: a constant, or a `String` from the caller.
#[derive(Debug, Drop)]
enum KindText {
    Fixed(&'static str),
    Owned(String),
}

/// The kind of a test binary: one of the six kinds of cargo, or any other text. Contracts see its text; two kinds are
/// equal if and only if their texts are.
#[derive(Debug)]
pub struct RustTestBinaryKind {
    text: KindText,
}

impl Model for RustTestBinaryKind {
    ghost use Rattle.std.specs.Prelude.{List, ℕ};
    ghost use Rattle.filterset_graph.specs.Kinds.{text_of};

    ghost Value = { List ℕ };

    ghost view = { λ kind. text_of kind.text };
}

// Implemented by hand: a derived `Drop` is proved again in each function that drops a kind.
impl Drop for RustTestBinaryKind {
    fn drop(self) {
        let RustTestBinaryKind { text: _text } = self;
    }
}

impl RustTestBinaryKind {
    /// `lib`, the tests of a library.
    pub const LIB: RustTestBinaryKind = RustTestBinaryKind {
        text: KindText::Fixed("lib"),
    };

    /// `proc-macro`, the tests of a procedural macro.
    pub const PROC_MACRO: RustTestBinaryKind = RustTestBinaryKind {
        text: KindText::Fixed("proc-macro"),
    };

    /// `test`, an integration test.
    pub const TEST: RustTestBinaryKind = RustTestBinaryKind {
        text: KindText::Fixed("test"),
    };

    /// `bench`, a benchmark.
    pub const BENCH: RustTestBinaryKind = RustTestBinaryKind {
        text: KindText::Fixed("bench"),
    };

    /// `bin`, the tests of a program.
    pub const BIN: RustTestBinaryKind = RustTestBinaryKind {
        text: KindText::Fixed("bin"),
    };

    /// `example`, the tests of an example.
    pub const EXAMPLE: RustTestBinaryKind = RustTestBinaryKind {
        text: KindText::Fixed("example"),
    };

    /// Returns the kind with this text.
    pub fn new(kind: String) -> RustTestBinaryKind
        ensures { result ≡ string_bytes kind }
    {
        RustTestBinaryKind {
            text: KindText::Owned(kind),
        }
    }

    /// Returns the text of the kind.
    pub fn as_str(&self) -> &str
        ensures { result.now ≡ self.now }
    {
        match &self.text {
            KindText::Fixed(text) => text,
            KindText::Owned(text) => text.as_str(),
        }
    }
}

impl PartialEq for RustTestBinaryKind {
    ghost eq = { bytes_eq };

    ghost laws = { laws.partial_equiv_from_equiv nat_list_eq_equiv };

    fn eq(&self, other: &RustTestBinaryKind) -> bool {
        self.as_str() == other.as_str()
    }
}

impl Eq for RustTestBinaryKind {
    ghost laws = { nat_list_eq_equiv };
}

/// The id of a test binary. Contracts see its text; two ids are equal if and only if their texts are.
#[derive(Debug, Drop)]
pub struct RustBinaryId {
    text: String,
}

impl Model for RustBinaryId {
    ghost use Rattle.std.specs.Prelude.{List, ℕ, string_bytes};

    ghost Value = { List ℕ };

    ghost view = { λ id. string_bytes id.text };
}

impl RustBinaryId {
    /// Returns the id with this text, which may be any text. The only error is out of memory.
    pub fn new(alloc: Global, id: &str) -> Result<RustBinaryId, AllocError>
        ensures { IfOk result (λ made. made ≡ id.now) }
    {
        Ok(RustBinaryId {
            text: String::from_str(alloc, id)?,
        })
    }

    /// Returns the id that cargo-nextest gives a test binary: `package` for the kinds `lib` and `proc-macro`,
    /// `package::target` for `test`, and `package::kind/target` for any other kind. The only error is out of memory.
    pub fn from_parts(
        alloc: Global,
        package_name: &str,
        kind: &RustTestBinaryKind,
        target_name: &str,
    ) -> Result<RustBinaryId, AllocError>
        ensures { IfOk result (λ id. id ≡ written_id package_name.now kind.now target_name.now) }
    {
        let kind = kind.as_str();
        let text = if kind == "lib" || kind == "proc-macro" {
            String::from_str(alloc, package_name)?
        } else if kind == "test" {
            format!(in alloc; "{package_name}::{target_name}")?
        } else {
            format!(in alloc; "{package_name}::{kind}/{target_name}")?
        };
        Ok(RustBinaryId { text })
    }

    /// Returns the text of the id.
    pub fn as_str(&self) -> &str
        ensures { result.now ≡ self.now }
    {
        self.text.as_str()
    }
}

impl PartialEq for RustBinaryId {
    ghost eq = { bytes_eq };

    ghost laws = { laws.partial_equiv_from_equiv nat_list_eq_equiv };

    fn eq(&self, other: &RustBinaryId) -> bool {
        self.as_str() == other.as_str()
    }
}

impl Eq for RustBinaryId {
    ghost laws = { nat_list_eq_equiv };
}

/// The name of a test within its binary. Contracts see its text; two names are equal if and only if their texts are.
#[derive(Debug, Drop)]
pub struct TestCaseName {
    text: String,
}

impl Model for TestCaseName {
    ghost use Rattle.std.specs.Prelude.{List, ℕ, string_bytes};

    ghost Value = { List ℕ };

    ghost view = { λ name. string_bytes name.text };
}

impl TestCaseName {
    /// Returns the name with this text. The only error is out of memory.
    pub fn new(alloc: Global, name: &str) -> Result<TestCaseName, AllocError>
        ensures { IfOk result (λ made. made ≡ name.now) }
    {
        Ok(TestCaseName {
            text: String::from_str(alloc, name)?,
        })
    }

    /// Returns the text of the name.
    pub fn as_str(&self) -> &str
        ensures { result.now ≡ self.now }
    {
        self.text.as_str()
    }
}

impl PartialEq for TestCaseName {
    ghost eq = { bytes_eq };

    ghost laws = { laws.partial_equiv_from_equiv nat_list_eq_equiv };

    fn eq(&self, other: &TestCaseName) -> bool {
        self.as_str() == other.as_str()
    }
}

impl Eq for TestCaseName {
    ghost laws = { nat_list_eq_equiv };
}
