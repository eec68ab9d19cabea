//! The addresses, and the numbers in the parts of a path.
ghost use Rattle.std.specs.Prelude.{◌≡◌, ℕ, [], IfOk, IfSome, IfNone, OnSome};
ghost use Rattle.mt_http.specs.Addresses.{with_route, FitsRoute, routes_1, routes_of, Pairs, ArePartsAscii, IsNumberFirst};

use matchit::{InsertError, ParamsIter, Router};
use mt_cells::{Kind, plain_number};
use std::alloc::{AllocError, Global};

// What a route is for.
#[derive(Clone, Copy, PartialEq, Eq, Debug)]
pub(crate) enum Address {
    Value(Kind),
    Tree(Kind),
    Matrix(Kind),
    Table,
    LeastM,
    Version,
    Export,
    Import,
}

// A router with the addresses.
pub(crate) fn make_router(alloc: Global) -> Result<Router<Address>, AllocError>
    ensures { IfOk result (λ router. router ≡ routes_of) }
{
    let mut router = Router::new(alloc);
    add_first(&mut router)?;
    add_rest(&mut router)?;
    Ok(router)
}

fn add_first(router: &mut Router<Address>) -> Result<(), AllocError>
    requires { router.old ≡ [] }
    ensures { IfOk result (λ _. router.new ≡ routes_1) }
{
    add(router, "/net/{q}/{m}/{s}", Address::Value(Kind::Net))?;
    add(router, "/oa/{q}/{m}/{s}", Address::Value(Kind::Oa))?;
    add(
        router,
        "/ooa/{q}/{m}/{s}/{depth}",
        Address::Value(Kind::Ooa),
    )?;
    add(router, "/sequence/{q}/{m}/{s}", Address::Value(Kind::Seq))?;
    add(router, "/tree/net/{q}/{m}/{s}", Address::Tree(Kind::Net))?;
    add(router, "/tree/oa/{q}/{m}/{s}", Address::Tree(Kind::Oa))?;
    add(
        router,
        "/tree/ooa/{q}/{m}/{s}/{depth}",
        Address::Tree(Kind::Ooa),
    )?;
    add(
        router,
        "/tree/sequence/{q}/{m}/{s}",
        Address::Tree(Kind::Seq),
    )?;
    Ok(())
}

fn add_rest(router: &mut Router<Address>) -> Result<(), AllocError>
    requires { router.old ≡ routes_1 }
    ensures { IfOk result (λ _. router.new ≡ routes_of) }
{
    add(
        router,
        "/matrix/net/{q}/{m}/{s}",
        Address::Matrix(Kind::Net),
    )?;
    add(router, "/matrix/oa/{q}/{m}/{s}", Address::Matrix(Kind::Oa))?;
    add(
        router,
        "/matrix/ooa/{q}/{m}/{s}/{depth}",
        Address::Matrix(Kind::Ooa),
    )?;
    add(
        router,
        "/matrix/sequence/{q}/{m}/{s}",
        Address::Matrix(Kind::Seq),
    )?;
    add(router, "/table/{q}/{m}", Address::Table)?;
    add(router, "/least-m/{q}/{s}/{k}", Address::LeastM)?;
    add(router, "/version", Address::Version)?;
    add(router, "/export", Address::Export)?;
    add(router, "/import", Address::Import)?;
    Ok(())
}

// Adds a route that fits.
fn add(router: &mut Router<Address>, route: &str, address: Address) -> Result<(), AllocError>
    requires { FitsRoute route.now router.old }
    ensures { IfOk result (λ _. router.new ≡ with_route route.now address router.old) }
{
    match router.insert(route, address) {
        Ok(()) => Ok(()),
        Err(InsertError::OutOfMemory) => Err(AllocError),
        Err(_) => unreachable!(),
    }
}

// The next part of the path, as a number.
pub(crate) fn next_number(parts: &mut ParamsIter<'_, '_, '_>) -> Option<u64>
    requires { ArePartsAscii parts.old }
    ensures found { IfSome result (λ n. IsNumberFirst parts.old n parts.new) }
    ensures none { IfNone result ((n : ℕ) (rest : Pairs) → ¬ IsNumberFirst parts.old n rest) }
    ensures ascii { OnSome result (ArePartsAscii parts.new) }
{
    match parts.next() {
        Some((_, part)) => plain_number(part),
        None => None,
    }
}
