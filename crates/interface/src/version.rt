// The version of what is exported.
ghost use Rattle.std.specs.Prelude.{◌≡◌};
ghost use Rattle.interface.specs.Version.{version_now};

// Gives the version: raised by each change of an answer's numbers, of a function's parameters or of the table's length, here, in the
// definition, in `include/cuyenalot.h` and in `examples/rust/cuyenalot.rs`.
#[unsafe(no_mangle)]
pub extern "C" fn cuy_version() -> u32
    ensures { result ≡ version_now }
{
    4
}
