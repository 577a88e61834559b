// What the tests run on. In a row a `~` stands for a newline.

// A document with each key that a table can have.
pub(super) const FULL: &str = "block_len = 64
blocks = 32
writers = 1
[[query]]
page_blocks = 1
limit = 2048
quota = 700
output = \"out.csv\"
on = [[\"k\", \"k\"]]
group = [\"left.k\"]
agg = [{op = \"count\"}, {op = \"sum\", column = \"right.n\"}]
[query.left]
file = \"l.csv\"
columns = [\"k:int\", \"x:text\"]
filter = [{column = \"x\", op = \">=\", value = \"b\"}]
[query.right]
file = \"r.csv\"
columns = [\"k:int\", \"n:int\"]
filter = [{column = \"n\", op = \"<\", value = 5}]
";

// Keys of the document.
pub(super) const DOCUMENT: &str = "block_len = 64||MissingKey|block_len
block_len = 64|block_len = \"64\"|WrongKind|block_len
block_len = 64|block_len = 96|Limit|block_len
~blocks = 32|~blocks = true|WrongKind|blocks
~blocks = 32|~blocks = 1048577|Limit|blocks
64~blocks = 32|65536~blocks = 32769|Limit|blocks
writers = 1|writers = 9|Limit|writers
[[query]]|[query]|WrongKind|query
[[query]]|[[query]]~[[query]]|MissingKey|query.1.page_blocks
writers = 1|writers = 1~writer = 1|UnknownKey|writer
writers = 1|writers = 1~trace = \"t\"|MissingKey|trace_entries
writers = 1|writers = 1~trace = 1~trace_entries = 1|WrongKind|trace
writers = 1|writers = 1~trace = \"\"~trace_entries = 1|Limit|trace
writers = 1|writers = 1~trace_entries = 1|UnknownKey|trace_entries
writers = 1|writers = 1~trace = \"t\"~trace_entries = true|WrongKind|trace_entries
writers = 1|writers = 1~trace = \"t\"~trace_entries = 0|Limit|trace_entries
writers = 1|writers = 1~trace = \"t\"~trace_entries = 1048577|Limit|trace_entries
writers = 1|writers = 1~trace = \"out.csv\"~trace_entries = 1|SameOutput|trace
writers = 1|writers = 1~trace = \"l.csv\"~trace_entries = 1|SameOutput|trace
writers = 1|writers = 1~trace = \"r.csv\"~trace_entries = 1|SameOutput|trace";

// Keys of a query, of its pairs, its group and its aggregates.
pub(super) const QUERIES: &str = "page_blocks = 1||MissingKey|query.1.page_blocks
page_blocks = 1|page_blocks = 3|Limit|query.1.page_blocks
2048|\"1\"|WrongKind|query.1.limit
2048|-1|Limit|query.1.limit
700|1048577|Limit|query.1.quota
\"out.csv\"|\"\"|Limit|query.1.output
query.left|query.lefts|UnknownKey|query.1.lefts
query.right|query.left.right|UnknownKey|query.1.on
on = [[\"k\", \"k\"]]||MissingKey|query.1.on
[[\"k\", \"k\"]]|[]|Limit|query.1.on
[\"k\", \"k\"]|[\"k\"]|Limit|query.1.on.1
[\"k\", \"k\"]|[\"k\", 1]|WrongKind|query.1.on.1.2
group = [\"left.k\"]||UnknownKey|query.1.agg
[\"left.k\"]|[]|Limit|query.1.group
[\"left.k\"]|[1]|WrongKind|query.1.group.1
{op = \"count\"}|{}|MissingKey|query.1.agg.1.op
\"count\"|\"mean\"|Limit|query.1.agg.1.op
\"count\"|\"count\", column = \"k\"|UnknownKey|query.1.agg.1.column
\"count\"|\"mean\", column = 1|Limit|query.1.agg.1.op
\"count\"|\"max\"|MissingKey|query.1.agg.1.column
quota = 700|quota = 700~fragments = 1|UnknownKey|query.1.fragments";

// Keys of a side and of its filter.
pub(super) const SIDES: &str = "file = \"l.csv\"||MissingKey|query.1.left.file
\"r.csv\"|\"\"|Limit|query.1.right.file
[\"k:int\", \"x:text\"]|[]|Limit|query.1.left.columns
\"x:text\"|\"x:wide\"|WrongKind|query.1.left.columns.2
[{column = \"x\"|[1, {column = \"x\"|WrongKind|query.1.left.filter.1
\">=\"|\"=>\"|Limit|query.1.left.filter.1.op
, value = 5||MissingKey|query.1.right.filter.1.value
value = 5|value = 5.0|WrongKind|query.1.right.filter.1.value
value = 5|value = 5, values = 5|UnknownKey|query.1.right.filter.1.values";

// Names of columns.
pub(super) const NAMES: &str = "\"x:text\"|\"k:text\"|Repeated|query.1.left.columns.2
[\"k\", \"k\"]|[\"j\", \"k\"]|UnknownColumn|query.1.on.1.1
[\"k\", \"k\"]|[\"k\", \"k\"], [\"k\", \"x\"]|UnknownColumn|query.1.on.2.2
[\"k\", \"k\"]|[\"x\", \"k\"]|KindClash|query.1.on.1
\"left.k\"|\"k\"|UnknownColumn|query.1.group.1
\"left.k\"|\"left.k\", \"left.k\", \"k\"|Repeated|query.1.group.2
\"right.n\"|\"left.x\"|KindClash|query.1.agg.2.column
value = \"b\"|value = 1|KindClash|query.1.left.filter.1.value";

// Where two faults stand together.
pub(super) const ORDER: &str =
    "block_len = 64~blocks = 32|zeta = 1~alphabet = 1~alpha = 1|UnknownKey|alpha
block_len = 64~blocks = 32|blocks = \"32\"|MissingKey|block_len
[\"left.k\"]|[1, 1, 1, 1, 1, 1, 1, 1, 1]|Limit|query.1.group
[[\"k\", \"k\"]]~group = [\"left.k\"]|[]~group = []|Limit|query.1.on
\"k\"]]~group = [\"left.k\"]|\"j\"]]~group = []|Limit|query.1.group
\"k\"]]~group = [\"left.k\"]|\"j\"]]~group = [\"k\"]|UnknownColumn|query.1.on.1.2
[\"k\", \"k\"]|[\"x\", \"k\"], [\"j\", \"k\"]|KindClash|query.1.on.1
writers = 1|writers = 9~trace = 1~trace_entries = 0|Limit|writers
writers = 1|writers = 1~trace = 1~trace_entries = 0|WrongKind|trace";

// A query that groups.
pub(super) const GROUPS: &str = "block_len = 256
blocks = 64
writers = 0
[[query]]
page_blocks = 1
limit = 16384
quota = 700
output = \"out.csv\"
group = [\"k\"]
agg = [{op = \"count\"}, {op = \"sum\", column = \"v\"}]
[query.left]
file = \"in.csv\"
columns = [\"k:text\", \"v:int\"]
";

// A query that joins.
pub(super) const JOINS: &str = "block_len = 64
blocks = 32
writers = 1
[[query]]
page_blocks = 1
limit = 2048
quota = 700
output = \"out.csv\"
on = [[\"k\", \"k\"]]
[query.left]
file = \"l.csv\"
columns = [\"k:int\", \"x:text\"]
[query.right]
file = \"r.csv\"
columns = [\"k:int\", \"y:text\"]
";

// A query that joins and groups.
pub(super) const BOTH: &str = "block_len = 8192
blocks = 8192
writers = 2
[[query]]
page_blocks = 8
limit = 67108864
quota = 131072
output = \"out.csv\"
on = [[\"cust\", \"id\"]]
group = [\"right.region\"]
agg = [{op = \"count\"}, {op = \"sum\", column = \"left.amount\"}]
[query.left]
file = \"orders.csv\"
columns = [\"cust:int\", \"amount:int\"]
[query.right]
file = \"customers.csv\"
columns = [\"id:int\", \"region:text\"]
";
