// The graph texts of the tests.

pub(crate) const SEVEN: &[u8] = b"data x 1 0\ntask a 1\nwrites x\nput x[0] = 7\nend\nprint x\n";

pub(crate) const DIAMOND: &[u8] = b"data x 1 5\ndata y 1 1\ndata z 1 1\ndata w 1 0\n\
task a 2\nwrites x\nput x[0] = 3\nend\n\
task b 3\nreads x\nwrites y\nput y[0] = (x[0] + 1)\nend\n\
task c 4\nreads x\nwrites z\nput z[0] = (x[0] * 2)\nend\n\
task d 1\nreads y z\nwrites w\nput w[0] = (y[0] + z[0])\nend\nprint w\n";

pub(crate) const HEAVY: &[u8] = b"data x 1 1\ndata y 1 1\ndata z 1 1\ndata w 1 0\n\
task a 2\nwrites x\nput x[0] = 3\nend\n\
task b 10\nreads x\nwrites y\nput y[0] = (x[0] + 1)\nend\n\
task c 10\nreads x\nwrites z\nput z[0] = (x[0] * 2)\nend\n\
task d 1\nreads y z\nwrites w\nput w[0] = (y[0] + z[0])\nend\nprint w\n";

pub(crate) const TWO: &[u8] = b"data x 1 0\ndata y 1 0\n\
task a 1\nwrites x\nput x[0] = 1\nend\n\
task b 1\nwrites y\nput y[0] = 2\nend\nprint x\nprint y\n";

pub(crate) const ARITHMETIC: &[u8] = b"data x 2 0\ndata r 5 0\n\
task a 1\nwrites x\nput x[0] = 11\nput x[1] = 22\nend\n\
task b 1\nreads x\nwrites r\n\
put r[0] = (18446744073709551615 + 1)\nput r[1] = (5 / 0)\nput r[2] = (5 % 0)\n\
put r[3] = (1 << 64)\nput r[4] = x[5]\nend\nprint r\n";

// Its work is exactly the limit.
pub(crate) const LOOPS: &[u8] = b"data x 1 0\ntask a 1\nwrites x\n\
for i 27\nfor j 12345\nset s = 0\ndone\ndone\nend\nprint x\n";

pub(crate) const ELIMINATION: &[u8] =
    b"data c0 3 6\ndata c1 3 2\ndata c2 3 2\ndata d1 3 4\ndata d2 3 3\n\
data e2 3 0\n\
task l0 1\nwrites c0\nput c0[0] = 2\nput c0[1] = 1\nput c0[2] = 3\nend\n\
task l1 1\nwrites c1\nput c1[0] = 4\nput c1[1] = 5\nput c1[2] = 9\nend\n\
task l2 1\nwrites c2\nput c2[0] = 7\nput c2[1] = 8\nput c2[2] = 10\nend\n\
task u01 6\nreads c0 c1\nwrites d1\nfor i 3\n\
put d1[i] = ((c1[i] * c0[0]) - (c0[i] * c1[0]))\ndone\nend\n\
task u02 6\nreads c0 c2\nwrites d2\nfor i 3\n\
put d2[i] = ((c2[i] * c0[0]) - (c0[i] * c2[0]))\ndone\nend\n\
task u12 6\nreads d1 d2\nwrites e2\nfor i 3\n\
put e2[i] = ((d2[i] * d1[1]) - (d1[i] * d2[1]))\ndone\nend\nprint e2\nprint d1\n";

pub(crate) const CHAIN: &[u8] = b"data x 1 0\ndata y 1 0\n\
task a 1\nwrites x\nend\ntask b 1\nreads x\nwrites y\nend\n";

// At the step of `x` the cluster of `a` is kept for `y`.
pub(crate) const RESERVED: &[u8] = b"data p 1 10\ndata q 1 6\ndata r 1 1\n\
task a 2\nwrites p q\nend\ntask x 16\nreads q\nend\n\
task b 1\nwrites r\nend\ntask y 20\nreads p r\nend\n";

pub(crate) const FIVE: &[u8] = b"data x 1 1\ndata m 1 9\ndata y 1 1\ndata z 1 1\ndata w 1 0\n\
task a 2\nwrites x\nput x[0] = 1\nend\n\
task b 4\nreads x\nwrites m\nput m[0] = (x[0] + 1)\nend\n\
task c 12\nreads x\nwrites z\nput z[0] = (x[0] + 2)\nend\n\
task e 4\nreads m\nwrites y\nput y[0] = (m[0] + 1)\nend\n\
task d 1\nreads y z\nwrites w\nput w[0] = (y[0] + z[0])\nend\nprint w\n";

// Two producers whose data meet in one task.
pub(crate) const JOINED: &[u8] = b"data x 1 10\ndata y 1 10\ndata z 1 0\n\
task a 2\nwrites x\nput x[0] = 1\nend\n\
task b 2\nwrites y\nput y[0] = 2\nend\n\
task c 1\nreads x y\nwrites z\nput z[0] = (x[0] + y[0])\nend\nprint z\n";

// `examples/subsequence.sh 2 3`: the longest common subsequence of two strings, in four blocks.
pub(crate) const WAVEFRONT: &[u8] =
    b"data edge 3 2\ndata a0 3 2\ndata b0 3 2\ndata a1 3 2\ndata b1 3 2\ndata row0_0 3 2\n\
data column0_0 3 2\ndata row0_1 3 2\ndata column0_1 3 2\ndata row1_0 3 2\ndata column1_0 3 2\n\
data row1_1 3 2\ndata column1_1 3 2\n\
task edge 1\nwrites edge\nend\n\
task make_a0 1\nwrites a0\nfor k 3\nset i = (0 + k)\n\
put a0[k] = ((((i * i) + (3 * i)) % 23) % 4)\ndone\nend\n\
task make_b0 1\nwrites b0\nfor k 3\nset i = (0 + k)\n\
put b0[k] = (((((i * i) * i) + i) % 19) % 4)\ndone\nend\n\
task make_a1 1\nwrites a1\nfor k 3\nset i = (3 + k)\n\
put a1[k] = ((((i * i) + (3 * i)) % 23) % 4)\ndone\nend\n\
task make_b1 1\nwrites b1\nfor k 3\nset i = (3 + k)\n\
put b1[k] = (((((i * i) * i) + i) % 19) % 4)\ndone\nend\n\
task block0_0 1\nreads a0 b0 edge\nwrites row0_0 column0_0\nfor j 3\nput row0_0[j] = edge[j]\n\
done\nset corner = edge[2]\nfor i 3\nset left = edge[i]\nset next = left\nset letter = a0[i]\n\
for j 3\nset above = row0_0[j]\n\
set left = ((letter == b0[j]) ? (corner + 1) : (above max left))\nput row0_0[j] = left\n\
set corner = above\ndone\nput column0_0[i] = left\nset corner = next\ndone\nend\n\
task block0_1 1\nreads a0 b1 edge column0_0\nwrites row0_1 column0_1\nfor j 3\n\
put row0_1[j] = edge[j]\ndone\nset corner = edge[2]\nfor i 3\nset left = column0_0[i]\n\
set next = left\nset letter = a0[i]\nfor j 3\nset above = row0_1[j]\n\
set left = ((letter == b1[j]) ? (corner + 1) : (above max left))\nput row0_1[j] = left\n\
set corner = above\ndone\nput column0_1[i] = left\nset corner = next\ndone\nend\n\
task block1_0 1\nreads a1 b0 row0_0 edge\nwrites row1_0 column1_0\nfor j 3\n\
put row1_0[j] = row0_0[j]\ndone\nset corner = edge[2]\nfor i 3\nset left = edge[i]\n\
set next = left\nset letter = a1[i]\nfor j 3\nset above = row1_0[j]\n\
set left = ((letter == b0[j]) ? (corner + 1) : (above max left))\nput row1_0[j] = left\n\
set corner = above\ndone\nput column1_0[i] = left\nset corner = next\ndone\nend\n\
task block1_1 1\nreads a1 b1 row0_1 column1_0 row0_0\nwrites row1_1 column1_1\nfor j 3\n\
put row1_1[j] = row0_1[j]\ndone\nset corner = row0_0[2]\nfor i 3\nset left = column1_0[i]\n\
set next = left\nset letter = a1[i]\nfor j 3\nset above = row1_1[j]\n\
set left = ((letter == b1[j]) ? (corner + 1) : (above max left))\nput row1_1[j] = left\n\
set corner = above\ndone\nput column1_1[i] = left\nset corner = next\ndone\nend\n\
print row1_0\nprint row1_1\n";
