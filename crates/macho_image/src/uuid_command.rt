//! `uuid_command`: the command LC_UUID.

ghost use Rattle.std.specs.Prelude.{◌≡◌, ◌≤◌, length};
ghost use Rattle.macho_image.specs.Contents.{uuid_bytes};

use uuid::Uuid;

/// `uuid`.
pub(crate) fn uuid_in(command: &[u8]) -> Uuid
    requires { 24 ≤ length command.now }
    ensures { result ≡ uuid_bytes command.now }
{
    let mut bytes = [0; 16];
    bytes.copy_from_slice(&command[8..24]);
    Uuid::from_bytes(bytes)
}
