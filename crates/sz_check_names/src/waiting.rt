//! Values that wait for what a call gives. Where it fails they are dropped here and in no other place.
ghost use Rattle.std.specs.Prelude.{◌≡◌, Ok, Err, IfOk, IfErr};

/// What a call gave, with the value that waited for it, unless the call failed.
pub fn beside<T, U: Drop, E>(given: Result<T, E>, value: U) -> Result<(T, U), E>
    ensures ok { IfOk result (λ x. (given ≡ Ok x.0) × (x.1 ≡ value)) }
    ensures err { IfErr result (λ e. given ≡ Err e) }
{
    match given {
        Ok(given) => Ok((given, value)),
        Err(error) => Err(error),
    }
}
