// The address of a load or a store.
ghost use Rattle.std.specs.Prelude.{◌≡◌};
ghost use Rattle.isa.specs.Addresses.{address_on};

// The address that a base register's word and a displacement give, of so many addresses, or none
// where it is not one of them. The sum wraps as words do.
pub fn address(addresses: u8, base: u32, displacement: u8) -> Option<u8>
    ensures { result ≡ address_on addresses base displacement }
{
    let word = base.wrapping_add(u32::from(displacement));
    if word < u32::from(addresses) {
        Some(word as u8)
    } else {
        None
    }
}
