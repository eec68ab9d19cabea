//! Every address, behind imports and withdrawals.
use crate::connections::{assert_rows, bounds, empty};
use crate::exchanges::{CAPS7, IMPORT, JSON, OK, Row};
use mt_cells::Bounds;
use std::test::Fail;

const WITHDRAW: &str = "withdraw caps7\n";

const NOT_FOUND: &str = "404 Not Found";

const CONFLICT: &str = "409 Conflict";

const REFUSED: &str = "422 Unprocessable Entity";

const CSV: &str = "text/csv";

const PLAIN: &str = "text/plain";

// The tables of values without and with the import are those that a plain Python program computes.
const BEHIND_AN_IMPORT: [Row; 20] = [
    ("GET /version", "", OK, JSON, "{\"version\":0}"),
    (
        "GET /table/2/4",
        "",
        OK,
        CSV,
        "s,net_k,net_t,oa_k,seq_t\n\
1,4,0,4,0\n2,4,0,4,0\n3,4,0,4,1\n4,3,1,4,3\n5,3,1,4,4\n6,3,1,3,4\n7,2,2,3,4\n8,2,2,3,4\n",
    ),
    (
        IMPORT,
        CAPS7,
        OK,
        JSON,
        "{\"import\":1,\"name\":\"caps7\",\"outcome\":\"accepted\",\"raised\":5}",
    ),
    ("GET /version?at_least=1", "", OK, JSON, "{\"version\":1}"),
    (
        "GET /table/2/4",
        "",
        OK,
        CSV,
        "s,net_k,net_t,oa_k,seq_t\n\
1,4,0,4,0\n2,4,0,4,0\n3,4,0,4,1\n4,3,1,4,3\n5,3,1,4,4\n6,3,1,3,4\n7,3,1,3,4\n8,2,2,3,4\n",
    ),
    (
        "GET /net/2/4/7",
        "",
        OK,
        JSON,
        "{\"depth\":4,\"k\":3,\"kind\":\"net\",\"m\":4,\"q\":2,\"s\":7,\"since\":1,\"t\":1,\"version\":1}",
    ),
    (
        "GET /ooa/2/3/7/2",
        "",
        OK,
        JSON,
        "{\"depth\":2,\"k\":2,\"kind\":\"ooa\",\"m\":3,\"q\":2,\"s\":7,\"since\":1,\"t\":1,\"version\":1}",
    ),
    (
        "GET /oa/2/3/4",
        "",
        OK,
        JSON,
        "{\"depth\":1,\"k\":3,\"kind\":\"oa\",\"m\":3,\"q\":2,\"s\":4,\"since\":0,\"t\":0,\"version\":1}",
    ),
    (
        "GET /sequence/2/3/3",
        "",
        OK,
        JSON,
        "{\"depth\":3,\"k\":2,\"kind\":\"seq\",\"m\":3,\"q\":2,\"s\":3,\"since\":0,\"t\":1,\"version\":1}",
    ),
    (
        "GET /tree/net/2/4/7",
        "",
        OK,
        JSON,
        "{\"nodes\":[{\"cell\":\"ooa 2 4 7 4\",\"k\":3,\"node\":1,\"parents\":[],\"rule\":\"import/1\"}],\"version\":1}",
    ),
    (
        "GET /tree/ooa/2/4/7/3",
        "",
        OK,
        JSON,
        "{\"nodes\":[{\"cell\":\"ooa 2 4 7 4\",\"k\":3,\"node\":1,\"parents\":[],\"rule\":\"import/1\"},\
{\"cell\":\"ooa 2 4 7 3\",\"k\":3,\"node\":2,\"parents\":[1],\"rule\":\"shallower\"}],\"version\":1}",
    ),
    (
        "GET /tree/oa/2/3/4",
        "",
        OK,
        JSON,
        "{\"nodes\":[{\"cell\":\"ooa 2 3 4 1\",\"k\":3,\"node\":1,\"parents\":[],\"rule\":\"parity\"}],\"version\":1}",
    ),
    (
        "GET /tree/sequence/2/3/2",
        "",
        OK,
        JSON,
        "{\"nodes\":[{\"cell\":\"seq 2 3 2\",\"k\":3,\"node\":1,\"parents\":[],\"rule\":\"niederreiter\"}],\"version\":1}",
    ),
    ("GET /matrix/net/2/4/7", "", OK, PLAIN, MATRICES),
    (
        "GET /matrix/oa/2/3/4",
        "",
        OK,
        PLAIN,
        "ooa 2 3 4 1 3 mint\n100\n010\n001\n111\n",
    ),
    (
        "GET /matrix/ooa/2/3/1/3",
        "",
        OK,
        PLAIN,
        "ooa 2 3 1 3 3 mint\n100\n010\n001\n",
    ),
    (
        "GET /matrix/sequence/3/2/3",
        "",
        OK,
        PLAIN,
        "seq 3 2 3 0 mint\n10\n01\n12\n01\n11\n01\n",
    ),
    (
        "GET /least-m/2/7/3",
        "",
        OK,
        JSON,
        "{\"k\":3,\"m\":4,\"q\":2,\"s\":7,\"version\":1}",
    ),
    (
        "GET /least-m/2/8/3",
        "",
        OK,
        JSON,
        "{\"k\":3,\"m\":null,\"q\":2,\"s\":8,\"version\":1}",
    ),
    (
        "GET /version?at_least=2",
        "",
        CONFLICT,
        JSON,
        "{\"at_least\":2,\"error\":\"not yet\",\"version\":1}",
    ),
];

// The import's rows.
const MATRICES: &str = "net 2 4 7 1 mint\n\
1001\n0001\n0010\n0000\n1010\n0010\n0001\n0000\n1011\n0011\n0001\n0000\n\
1100\n0100\n0001\n0000\n1101\n0101\n0001\n0000\n1110\n0110\n0001\n0000\n\
1111\n0111\n0001\n0000\n";

#[test]
fn answers_behind_an_import(rt: HostRuntime) -> Result<(), Fail> {
    let alloc = rt.alloc();
    assert_rows(&rt, alloc, bounds()?, empty(alloc), &BEHIND_AN_IMPORT)
}

const BEHIND_A_WITHDRAWAL: [Row; 18] = [
    (
        IMPORT,
        WITHDRAW,
        REFUSED,
        JSON,
        "{\"error\":\"no import\",\"name\":\"caps7\"}",
    ),
    (
        IMPORT,
        CAPS7,
        OK,
        JSON,
        "{\"import\":1,\"name\":\"caps7\",\"outcome\":\"accepted\",\"raised\":5}",
    ),
    (
        IMPORT,
        CAPS7,
        OK,
        JSON,
        "{\"import\":1,\"name\":\"caps7\",\"outcome\":\"already\"}",
    ),
    (
        IMPORT,
        WITHDRAW,
        OK,
        JSON,
        "{\"import\":1,\"lowered\":5,\"name\":\"caps7\",\"outcome\":\"withdrawn\"}",
    ),
    (
        "GET /net/2/4/7?at_least=2",
        "",
        OK,
        JSON,
        "{\"depth\":4,\"k\":2,\"kind\":\"net\",\"m\":4,\"q\":2,\"s\":7,\"since\":2,\"t\":2,\"version\":2}",
    ),
    (
        "GET /least-m/2/7/3",
        "",
        OK,
        JSON,
        "{\"k\":3,\"m\":null,\"q\":2,\"s\":7,\"version\":2}",
    ),
    (
        IMPORT,
        WITHDRAW,
        OK,
        JSON,
        "{\"import\":1,\"name\":\"caps7\",\"outcome\":\"already withdrawn\"}",
    ),
    (
        IMPORT,
        CAPS7,
        CONFLICT,
        JSON,
        "{\"error\":\"withdrawn\",\"import\":1,\"name\":\"caps7\"}",
    ),
    (
        IMPORT,
        "ooa 2 2 1 1 2 caps7\n10\n",
        CONFLICT,
        JSON,
        "{\"error\":\"name taken\",\"import\":1,\"name\":\"caps7\"}",
    ),
    (
        IMPORT,
        "",
        REFUSED,
        JSON,
        "{\"error\":\"form\",\"line\":1,\"wanted\":\"header\"}",
    ),
    (
        IMPORT,
        "ooa 2 5 1 1 0 wide\n00000\n",
        REFUSED,
        JSON,
        "{\"error\":\"range\",\"limit\":4,\"name\":\"m\",\"number\":5}",
    ),
    (
        IMPORT,
        "seq 2 2 2 0 twice\n10\n01\n10\n01\n",
        REFUSED,
        JSON,
        "{\"choice\":[1,1],\"coefficients\":[1,1],\"error\":\"dependent\",\"part\":2}",
    ),
    (
        "GET /tree/ooa/2/4/7/5",
        "",
        NOT_FOUND,
        JSON,
        "{\"error\":\"outside\",\"name\":\"depth\",\"number\":5}",
    ),
    (
        "GET /matrix/sequence/6/4/7",
        "",
        NOT_FOUND,
        JSON,
        "{\"error\":\"outside\",\"name\":\"q\",\"number\":6}",
    ),
    (
        "GET /least-m/2/9/3",
        "",
        NOT_FOUND,
        JSON,
        "{\"error\":\"outside\",\"name\":\"s\",\"number\":9}",
    ),
    (
        "GET /tree/version",
        "",
        NOT_FOUND,
        JSON,
        "{\"error\":\"no such address\"}",
    ),
    (
        "GET /version?at_least=",
        "",
        NOT_FOUND,
        JSON,
        "{\"error\":\"no such address\"}",
    ),
    ("GET /version", "", OK, JSON, "{\"version\":2}"),
];

#[test]
fn answers_behind_a_withdrawal(rt: HostRuntime) -> Result<(), Fail> {
    let alloc = rt.alloc();
    assert_rows(&rt, alloc, bounds()?, empty(alloc), &BEHIND_A_WITHDRAWAL)
}

// Each cell has one row, so each value is 1.
const EXPORT: [Row; 1] = [(
    "GET /export",
    "",
    OK,
    CSV,
    "kind,q,m,s,depth,k,since\n\
ooa,2,1,1,1,1,0\nseq,2,1,1,1,1,0\nooa,3,1,1,1,1,0\nseq,3,1,1,1,1,0\n\
ooa,4,1,1,1,1,0\nseq,4,1,1,1,1,0\nooa,5,1,1,1,1,0\nseq,5,1,1,1,1,0\n\
ooa,7,1,1,1,1,0\nseq,7,1,1,1,1,0\nooa,8,1,1,1,1,0\nseq,8,1,1,1,1,0\n\
ooa,9,1,1,1,1,0\nseq,9,1,1,1,1,0\n",
)];

#[test]
fn an_export(rt: HostRuntime) -> Result<(), Fail> {
    let (alloc, bounds) = (rt.alloc(), Bounds::new(1, 1).ok_or("bounds")?);
    assert_rows(&rt, alloc, bounds, empty(alloc), &EXPORT)
}
