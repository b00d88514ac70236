// The calls of `host` for C, as host/krasvome.h declares them: the same names, the same clauses.
#![tactic(auto)]

ghost use Rattle.std.specs.Prelude.{◌≡◌};
ghost use Rattle.operations.specs.declared.Engine.TheVariants.{Fields, Steps};
ghost use Rattle.operations.specs.declared.Move.TheVariants.{Load, Rest, Vector};
ghost use Rattle.host.specs.Calls.{host_move, host_history};
ghost use Rattle.host.specs.Vectors.{host_vectors};

#[unsafe(no_mangle)]
pub extern "C" fn krasvome_load(session: &mut [u8], card: &[u8]) -> u64
    ensures { record { answer = result; bytes = session.new } ≡ host_move Load session.old card.now }
{
    host::krasvome_load(session, card)
}

#[unsafe(no_mangle)]
pub extern "C" fn krasvome_rest(session: &mut [u8], vector: &[u8]) -> u64
    ensures { record { answer = result; bytes = session.new } ≡ host_move Rest session.old vector.now }
{
    host::krasvome_rest(session, vector)
}

#[unsafe(no_mangle)]
pub extern "C" fn krasvome_vector(session: &mut [u8], vector: &[u8]) -> u64
    ensures { record { answer = result; bytes = session.new } ≡ host_move (Vector Fields) session.old vector.now }
{
    host::krasvome_vector(session, vector)
}

#[unsafe(no_mangle)]
pub extern "C" fn krasvome_steps(session: &mut [u8], vector: &[u8]) -> u64
    ensures { record { answer = result; bytes = session.new } ≡ host_move (Vector Steps) session.old vector.now }
{
    host::krasvome_steps(session, vector)
}

#[unsafe(no_mangle)]
pub extern "C" fn krasvome_history(
    session: &[u8],
    words: &mut [u64],
    befores: &mut [u8],
    flags: &mut [u8],
) -> u64
    ensures { record { answer = result; words = words.new; befores = befores.new; flags = flags.new }
        ≡ host_history session.now words.old befores.old flags.old }
{
    host::krasvome_history(session, words, befores, flags)
}

#[unsafe(no_mangle)]
pub extern "C" fn krasvome_vectors(session: &mut [u8], vectors: &[u8], words: &mut [u64]) -> u64
    ensures { record { answer = result; bytes = session.new; words = words.new }
        ≡ host_vectors Fields session.old vectors.now words.old }
{
    host::krasvome_vectors(session, vectors, words)
}

#[unsafe(no_mangle)]
pub extern "C" fn krasvome_vectors_steps(
    session: &mut [u8],
    vectors: &[u8],
    words: &mut [u64],
) -> u64
    ensures { record { answer = result; bytes = session.new; words = words.new }
        ≡ host_vectors Steps session.old vectors.now words.old }
{
    host::krasvome_vectors_steps(session, vectors, words)
}
